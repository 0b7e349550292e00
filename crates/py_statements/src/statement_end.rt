// Statements, lines and headers end.

ghost use Rattle.std.specs.Prelude.{◌≡◌, IfOk, true};
ghost use Rattle.py_statements.specs.Machine.{over_line, end_simple, end_header};
ghost use Rattle.py_statements.specs.Open.{add};
ghost use Rattle.py_statements.specs.ViewStates.{view_suites, view_state, Continues, ContinuesTo};
ghost use Rattle.py_statements.specs.ViewStates.{EndsMade};
ghost use Rattle.py_statements.specs.ViewSuiteOf.{boxed_kind, boxed_suite_of};

use crate::lists::{Class, is_a};
use crate::places::{Place, State};
use crate::suite_of::SuiteOf;
use crate::suite_stack::{Span, SuiteStack};
use py_syntax::{LineEnd, StmtKind};
use py_text::NoMemory;
use py_token::{Mark, Token, TokenKind};
use std::alloc::Global;

/// A line ends, and a suite that shares it.
fn over_line(alloc: Global, suites: SuiteStack, last: u32) -> Result<State, NoMemory>
    ensures { IfOk result (λ s. view_state s ≡ over_line (view_suites suites) last) }
{
    if suites.shares_line() {
        suites.close(alloc, last)
    } else {
        Ok(State::Line(suites))
    }
}

/// A statement that ends its line.
pub fn end_line(
    alloc: Global,
    kind: Box<StmtKind>,
    semicolon: bool,
    span: Span,
    suites: SuiteStack,
    last: u32,
) -> Result<State, NoMemory>
    ensures { IfOk result (λ s. view_state s ≡ over_line (add (view_suites suites)
        span.begun span.last (boxed_kind kind)
        (record { semicolon = semicolon; newline = true })) last) }
{
    let suites = suites.add(
        span.begun,
        span.last,
        kind,
        LineEnd {
            semicolon,
            newline: true,
        },
    )?;
    over_line(alloc, suites, last)
}

/// A simple statement is whole.
pub fn end_simple(
    alloc: Global,
    kind: Box<StmtKind>,
    span: Span,
    suites: SuiteStack,
    token: &Token,
) -> Result<Option<State>, NoMemory>
    ensures { Continues token.now (end_simple (boxed_kind kind)) span suites result }
{
    if is_a(token, Class::Semicolon) {
        return Ok(Some(State::At(Place::Semicolon(kind), span, suites)));
    }
    if is_a(token, Class::Newline) {
        return Ok(Some(end_line(alloc, kind, false, span, suites, token.last)?));
    }
    drop(kind);
    Ok(None)
}

/// The same of a simple statement that was just made, where memory lasts.
pub fn end_made(
    alloc: Global,
    made: Result<Box<StmtKind>, NoMemory>,
    span: Span,
    suites: SuiteStack,
    token: &Token,
) -> Result<Option<State>, NoMemory>
    ensures { EndsMade token.now made span suites result }
{
    match made {
        Ok(kind) => end_simple(alloc, kind, span, suites, token),
        Err(error) => Err(error),
    }
}

/// A header is whole.
pub fn end_header(
    suite_of: Box<SuiteOf>,
    span: Span,
    suites: SuiteStack,
    token: &Token,
) -> Option<State>
    ensures { ContinuesTo token.now (end_header (boxed_suite_of suite_of)) span suites result }
{
    match &token.kind {
        TokenKind::Mark(Mark::Colon) => {
            Some(State::At(
                Place::SuiteWanted(suite_of),
                span.onward(token.last),
                suites,
            ))
        }
        // Any other token: a header ends in a colon alone.
        _ => None,
    }
}
