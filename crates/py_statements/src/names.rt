// Listed names.

ghost use Rattle.std.specs.Prelude.{◌≡◌};
ghost use Rattle.py_statements.specs.Machine.{after_name};
ghost use Rattle.py_statements.specs.Listed.{may_bind};
ghost use Rattle.py_statements.specs.ViewStates.{view_listed, Continues};

use crate::lists::{Class, is_a};
use crate::places::{Listed, Place, State};
use crate::statement_end::end_made;
use crate::suite_stack::{Span, SuiteStack};
use py_text::NoMemory;
use py_token::Token;
use std::alloc::Global;

pub fn may_bind(names: &Listed) -> bool
    ensures { result ≡ may_bind (view_listed names.now) }
{
    match names {
        Listed::Globals(_) => false,
        Listed::Imports(_) => true,
        Listed::Froms(_, _) => true,
    }
}

/// After a listed name and what it is bound to.
pub fn after_name(
    alloc: Global,
    names: Listed,
    span: Span,
    suites: SuiteStack,
    token: &Token,
) -> Result<Option<State>, NoMemory>
    ensures { Continues token.now (after_name (view_listed names)) span suites result }
{
    if is_a(token, Class::Comma) {
        return Ok(Some(State::At(Place::NameWanted(names), span.onward(token.last), suites)));
    }
    end_made(alloc, names.listed(alloc), span, suites, token)
}
