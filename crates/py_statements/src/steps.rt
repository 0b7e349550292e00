// Steps from a state.

ghost use Rattle.std.specs.Prelude.{◌≡◌, true};
ghost use Rattle.py_syntax.specs.Headers.{is_match};
ghost use Rattle.py_statements.specs.Machine.{After, begun, choose, at_line, header_step};
ghost use Rattle.py_statements.specs.Machine.{plain_step};
ghost use Rattle.py_statements.specs.ViewStates.{kind_at, first_at, last_at, view_suites};
ghost use Rattle.py_statements.specs.ViewStates.{view_state, Makes, Rests, Steps, step_marked};
ghost use Rattle.py_statements.specs.ViewSuiteOf.{boxed_kind, of_match};

use crate::after_suite::{Part, is_whole, next_part};
use crate::kinds::matched;
use crate::lists::{Class, has_cases, is_a, is_case};
use crate::places::{Place, State, Turn};
use crate::purposes::Continuation;
use crate::statement_start::{begun_at, line};
use crate::suite_of::PartialMatch;
use crate::suite_stack::{Span, SuiteStack};
use py_syntax::{LineEnd, StmtKind};
use py_text::NoMemory;
use py_token::Token;
use std::alloc::Global;

/// Nothing is read.
pub fn begun(alloc: Global) -> State
    ensures { view_state result ≡ begun }
{
    State::Line(SuiteStack {
        body: Vec::new(alloc),
        open: Vec::new(alloc),
    })
}

/// Between the cases of a `match`, in its block.
pub fn choose(
    alloc: Global,
    partial_match: Box<PartialMatch>,
    first: u32,
    suites: SuiteStack,
    token: &Token,
) -> Result<Option<State>, NoMemory>
    ensures { Makes (of_match choose partial_match first (view_suites suites)
        (kind_at token.now) (first_at token.now) (last_at token.now)) result }
{
    if is_a(token, Class::Dedent) {
        if !has_cases(&partial_match.cases) {
            return Ok(None);
        }
        let kind = matched(alloc, partial_match)?;
        return Ok(Some(State::After(kind, first, token.last, suites)));
    }
    if !is_case(&token.kind) {
        return Ok(None);
    }
    let span = Span {
        begun: first,
        first: token.first,
        last: token.last,
    };
    Ok(Some(State::At(Place::PatternWanted(partial_match), span, suites)))
}

/// A compound statement is put into its block, where it has all that it needs.
pub fn put(
    kind: Box<StmtKind>,
    first: u32,
    last: u32,
    suites: SuiteStack,
) -> Result<Option<SuiteStack>, NoMemory>
    ensures { Rests (After (boxed_kind kind) first last (view_suites suites)) result }
{
    if !is_whole(&kind) {
        drop(kind);
        return Ok(None);
    }
    Ok(Some(suites.add(
        first,
        last,
        kind,
        LineEnd {
            semicolon: false,
            newline: false,
        },
    )?))
}

/// The token after a suite.
pub fn after(
    alloc: Global,
    kind: Box<StmtKind>,
    first: u32,
    last: u32,
    suites: SuiteStack,
    token: &Token,
) -> Result<Turn, NoMemory>
    ensures { Steps token.now
        (plain_step (After (boxed_kind kind) first last (view_suites suites))) result }
{
    match next_part(alloc, kind, token)? {
        Part::Next(place) => {
            let span = Span {
                begun: first,
                first: token.first,
                last: token.last,
            };
            Ok(Turn::Next(State::At(place, span, suites)))
        }
        Part::Whole(kind) => match put(kind, first, last, suites)? {
            Some(suites) => line(alloc, suites, token),
            None => Ok(Turn::Stuck),
        },
    }
}

/// The header of a `match` begins with the token.
fn header_step(state: State, token: &Token) -> Result<Turn, NoMemory>
    requires { is_match (kind_at token.now) ≡ true }
    ensures { Steps token.now (header_step (at_line (view_state state))) result }
{
    match state.at_line()? {
        Some(suites) => {
            let place = Place::Wanted(Continuation::Subject);
            Ok(Turn::Next(State::At(place, begun_at(token), suites)))
        }
        None => Ok(Turn::Stuck),
    }
}

/// A step, where it is known whether the header of a `match` begins with the token.
pub fn step(alloc: Global, state: State, token: &Token, header: bool) -> Result<Turn, NoMemory>
    requires { header ≡ true → is_match (kind_at token.now) ≡ true }
    ensures { Steps token.now (step_marked (view_state state) header) result }
{
    if header {
        header_step(state, token)
    } else {
        state.plain_step(alloc, token)
    }
}
