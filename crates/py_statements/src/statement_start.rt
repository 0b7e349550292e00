// Statements begin.

ghost use Rattle.std.specs.Prelude.{◌≡◌, ◌&&◌};
ghost use Rattle.py_statements.specs.Machine.{simple_place, compound_place, begin_simple};
ghost use Rattle.py_statements.specs.Machine.{begin_line, line};
ghost use Rattle.py_statements.specs.ViewLists.{is_dedent, is_end};
ghost use Rattle.py_statements.specs.ViewStates.{kind_at, first_at, last_at, view_suites};
ghost use Rattle.py_statements.specs.ViewStates.{is_closable, is_top, MakesPlace, Steps};

use crate::kinds::{boxed, boxed_suite_of};
use crate::lists::{Class, is_a};
use crate::places::{Listed, Place, State, Turn};
use crate::purposes::Continuation;
use crate::suite_of::SuiteOf;
use crate::suite_stack::{Span, SuiteStack};
use py_syntax::StmtKind;
use py_text::NoMemory;
use py_token::{Keyword, Token, TokenKind};
use std::alloc::Global;

/// The lines of a statement that begins with the token.
pub fn begun_at(token: &Token) -> Span
    ensures begun { result.begun ≡ (first_at token.now) }
    ensures first { result.first ≡ (first_at token.now) }
    ensures last { result.last ≡ (last_at token.now) }
{
    Span {
        begun: token.first,
        first: token.first,
        last: token.last,
    }
}

/// The simple statements that begin with a keyword.
fn simple_place(alloc: Global, token: &Token) -> Result<Option<Place>, NoMemory>
    ensures { MakesPlace (simple_place (kind_at token.now)) result }
{
    match &token.kind {
        TokenKind::Keyword(Keyword::Pass) => {
            Ok(Some(Place::Simple(boxed(alloc, StmtKind::Pass)?)))
        }
        TokenKind::Keyword(Keyword::Break) => {
            Ok(Some(Place::Simple(boxed(alloc, StmtKind::Break)?)))
        }
        TokenKind::Keyword(Keyword::Continue) => {
            Ok(Some(Place::Simple(boxed(alloc, StmtKind::Continue)?)))
        }
        TokenKind::Keyword(Keyword::Return) => Ok(Some(Place::Leaving(false))),
        TokenKind::Keyword(Keyword::Raise) => Ok(Some(Place::Leaving(true))),
        TokenKind::Keyword(Keyword::Assert) => Ok(Some(Place::Wanted(Continuation::Asserted))),
        TokenKind::Keyword(Keyword::Global) => {
            Ok(Some(Place::NameWanted(Listed::Globals(Vec::new(alloc)))))
        }
        TokenKind::Keyword(Keyword::Import) => {
            Ok(Some(Place::NameWanted(Listed::Imports(Vec::new(alloc)))))
        }
        TokenKind::Keyword(Keyword::From) => Ok(Some(Place::ModuleWanted)),
        _ => Ok(None),
    }
}

/// And the compound ones.
fn compound_place(alloc: Global, token: &Token) -> Result<Option<Place>, NoMemory>
    ensures { MakesPlace (compound_place (kind_at token.now)) result }
{
    match &token.kind {
        TokenKind::Keyword(Keyword::If) => {
            Ok(Some(Place::Wanted(Continuation::ArmTest(Vec::new(alloc)))))
        }
        TokenKind::Keyword(Keyword::While) => Ok(Some(Place::Wanted(Continuation::WhileTest))),
        TokenKind::Keyword(Keyword::For) => Ok(Some(Place::Wanted(Continuation::ForTarget))),
        TokenKind::Keyword(Keyword::Try) => {
            Ok(Some(Place::ColonWanted(boxed_suite_of(alloc, SuiteOf::Try)?)))
        }
        TokenKind::Keyword(Keyword::Def) => Ok(Some(Place::FunctionWanted)),
        _ => Ok(None),
    }
}

/// A simple statement begins with the token.
pub fn begin_simple(alloc: Global, suites: SuiteStack, token: &Token) -> Result<Turn, NoMemory>
    ensures { Steps token.now (begin_simple (view_suites suites)) result }
{
    let span = begun_at(token);
    match simple_place(alloc, token)? {
        Some(place) => Ok(Turn::Next(State::At(place, span, suites))),
        None => Ok(Turn::Reads(Continuation::Value(Vec::new(alloc)), span, suites)),
    }
}

/// Any statement but a `match`.
fn begin_line(alloc: Global, suites: SuiteStack, token: &Token) -> Result<Turn, NoMemory>
    ensures { Steps token.now (begin_line (view_suites suites)) result }
{
    match compound_place(alloc, token)? {
        Some(place) => Ok(Turn::Next(State::At(place, begun_at(token), suites))),
        None => begin_simple(alloc, suites, token),
    }
}

/// Whether the module ends with the token.
fn ends_module(suites: &SuiteStack, token: &Token) -> bool
    ensures { result ≡ (is_end (kind_at token.now) && is_top (view_suites suites.now)) }
{
    is_a(token, Class::End) && suites.is_top()
}

/// Whether the innermost block ends with it.
fn ends_block(suites: &SuiteStack, token: &Token) -> bool
    ensures { result ≡ (is_dedent (kind_at token.now) && is_closable (view_suites suites.now)) }
{
    is_a(token, Class::Dedent) && suites.ends()
}

/// A token comes on a new line.
pub fn line(alloc: Global, suites: SuiteStack, token: &Token) -> Result<Turn, NoMemory>
    ensures { Steps token.now (line (view_suites suites)) result }
{
    if ends_module(&suites, token) {
        return Ok(Turn::Next(State::Over(suites.into_body())));
    }
    if ends_block(&suites, token) {
        return Ok(Turn::Next(suites.close(alloc, token.last)?));
    }
    begin_line(alloc, suites, token)
}
