// The reading of a list of tokens, from a place to a later one.

ghost use Rattle.std.specs.Prelude.{◌≡◌, ◌≤◌, ◌<◌, length};
ghost use Rattle.py_token.specs.View.{view_tokens};
ghost use Rattle.py_syntax.specs.View.{plain_pattern};
ghost use Rattle.py_statements.specs.Machine.{goal, resume, resume_pattern};
ghost use Rattle.py_parse.specs.Refusal.{IsUnexpected, HasDeepSuites, HasDeepExpressions};
ghost use Rattle.py_parse.specs.Refusal.{IsRefused, line_of};
ghost use Rattle.py_parse_expr.specs.ExprReads.{goal_of};
ghost use Rattle.py_statements.specs.ViewSuiteOf.{boxed_expr, of_match};
ghost use Rattle.py_statements.specs.ViewStates.{view_continuation, view_state};
ghost use Rattle.py_parse.specs.Progress.{StandsAt, Advances, MatchesThere, ReadsThere, ResumesBy};
ghost use Rattle.py_parse.specs.Progress.{Takes};

use crate::error::{DepthKind, SyntaxError};
use py_grammar::ReadError;
use py_parse_expr::{ExprPart, ExprRead, read_expr};
use py_parse_pattern::{PatternRead, read_patterns};
use py_statements::{
    Continuation, PartialMatch, Span, State, SuiteStack, Turn, is_header, resume_pattern, step,
};
use py_syntax::NESTING_LIMIT;
use py_token::Token;
use std::alloc::Global;

/// The state at a place in the tokens.
#[derive(Drop)]
pub struct Progress {
    pub state: State,
    pub next: usize,
}

/// The line of a refusal at a place.
pub fn line_at(tokens: &[Token], place: usize) -> u32
    requires { place ≤ length tokens.now }
    ensures { result ≡ line_of (view_tokens tokens.now) place }
{
    if place < tokens.len() {
        tokens[place].first
    } else if place == 0 {
        1
    } else {
        tokens[place - 1].last
    }
}

/// No module goes on with the token at the place, or the list ends there.
pub fn unexpected(tokens: &[Token], place: usize) -> SyntaxError
    requires inside { place ≤ length tokens.now }
    requires is { IsUnexpected (view_tokens tokens.now) place }
    ensures { IsRefused (view_tokens tokens.now) result }
{
    SyntaxError::Unexpected(line_at(tokens, place))
}

fn too_many_suites(tokens: &[Token], place: usize) -> SyntaxError
    requires inside { place ≤ length tokens.now }
    requires is { HasDeepSuites (view_tokens tokens.now) place }
    ensures { IsRefused (view_tokens tokens.now) result }
{
    SyntaxError::TooDeep(DepthKind::Suites, line_at(tokens, place))
}

fn too_high(tokens: &[Token], place: usize) -> SyntaxError
    requires inside { place ≤ length tokens.now }
    requires is { HasDeepExpressions (view_tokens tokens.now) place }
    ensures { IsRefused (view_tokens tokens.now) result }
{
    SyntaxError::TooDeep(DepthKind::Expressions, line_at(tokens, place))
}

/// The place after a token, where the token is taken.
fn moved(tokens: &[Token], place: usize, state: Option<State>) -> Result<Progress, SyntaxError>
    requires inside { place < length tokens.now }
    requires turns { Takes tokens.now place state }
    ensures { Advances (view_tokens tokens.now) place result }
{
    let Some(state) = state else {
        return Err(unexpected(tokens, place));
    };
    if state.level() > NESTING_LIMIT {
        drop(state);
        return Err(too_many_suites(tokens, place));
    }
    Ok(Progress {
        state,
        next: place + 1,
    })
}

fn part_of(purpose: &Continuation) -> ExprPart
    ensures { goal_of result ≡ goal (view_continuation purpose.now) }
{
    match purpose {
        Continuation::Value(_) => ExprPart::Any,
        Continuation::Augmented(_, _) => ExprPart::Any,
        Continuation::Leaving(raises) => {
            if *raises {
                ExprPart::One
            } else {
                ExprPart::Any
            }
        }
        Continuation::Asserted => ExprPart::One,
        Continuation::Reason(_) => ExprPart::One,
        Continuation::ArmTest(_) => ExprPart::One,
        Continuation::WhileTest => ExprPart::One,
        Continuation::ForTarget => ExprPart::Target,
        Continuation::ForOver(_) => ExprPart::Any,
        Continuation::ClauseKind(_) => ExprPart::One,
        Continuation::Subject => ExprPart::Any,
        Continuation::Guard(_, _) => ExprPart::One,
        Continuation::Default(_, _) => ExprPart::One,
    }
}

/// After an expression.
fn after_expression(
    alloc: Global,
    tokens: &[Token],
    place: usize,
    purpose: Continuation,
    span: Span,
    suites: SuiteStack,
    read: ExprRead,
) -> Result<Progress, SyntaxError>
    requires { ResumesBy tokens.now place read.next
        (resume (view_continuation purpose) (boxed_expr read.expr)) span suites }
    ensures { Advances (view_tokens tokens.now) place result }
{
    let span = span.onward(tokens[read.next - 1].last);
    let token = &tokens[read.next];
    let state = purpose.resume(alloc, read.expr, span, suites, token)?;
    moved(tokens, read.next, state)
}

/// Reads an expression, and the token after it.
fn expression(
    alloc: Global,
    tokens: &[Token],
    place: usize,
    purpose: Continuation,
    span: Span,
    suites: SuiteStack,
) -> Result<Progress, SyntaxError>
    requires inside { place < length tokens.now }
    requires begins { ReadsThere tokens.now place purpose span suites }
    ensures { Advances (view_tokens tokens.now) place result }
{
    match read_expr(alloc, tokens, place, part_of(&purpose)) {
        Ok(read) => after_expression(alloc, tokens, place, purpose, span, suites, read),
        Err(ReadError::Unexpected(place)) => {
            drop(purpose);
            Err(unexpected(tokens, place))
        }
        Err(ReadError::TooDeep(place)) => {
            drop(purpose);
            Err(too_high(tokens, place))
        }
        Err(ReadError::NoMemory) => {
            drop(purpose);
            Err(SyntaxError::NoMemory)
        }
    }
}

/// After the pattern of a `case`.
fn after_pattern(
    alloc: Global,
    tokens: &[Token],
    place: usize,
    partial_match: Box<PartialMatch>,
    span: Span,
    suites: SuiteStack,
    read: PatternRead,
) -> Result<Progress, SyntaxError>
    requires { ResumesBy tokens.now place read.next
        (of_match resume_pattern partial_match (plain_pattern read.pattern)) span suites }
    ensures { Advances (view_tokens tokens.now) place result }
{
    let span = span.onward(tokens[read.next - 1].last);
    let token = &tokens[read.next];
    let Ok(pattern) = Box::new(alloc, read.pattern) else {
        return Err(SyntaxError::NoMemory);
    };
    let state = resume_pattern(alloc, partial_match, pattern, span, suites, token)?;
    moved(tokens, read.next, state)
}

/// Reads the pattern of a `case`, and the token after it.
fn pattern(
    alloc: Global,
    tokens: &[Token],
    place: usize,
    partial_match: Box<PartialMatch>,
    span: Span,
    suites: SuiteStack,
) -> Result<Progress, SyntaxError>
    requires inside { place < length tokens.now }
    requires begins { MatchesThere tokens.now place partial_match span suites }
    ensures { Advances (view_tokens tokens.now) place result }
{
    match read_patterns(alloc, tokens, place) {
        Ok(read) => after_pattern(alloc, tokens, place, partial_match, span, suites, read),
        Err(ReadError::Unexpected(place)) => Err(unexpected(tokens, place)),
        Err(ReadError::TooDeep(place)) => Err(too_high(tokens, place)),
        Err(ReadError::NoMemory) => Err(SyntaxError::NoMemory),
    }
}

/// Goes on by a token, and where it begins an expression or a pattern after that and the token
/// there.
pub fn advance(
    alloc: Global,
    tokens: &[Token],
    place: usize,
    state: State,
) -> Result<Progress, SyntaxError>
    requires inside { place < length tokens.now }
    requires stands { StandsAt (view_tokens tokens.now) place (view_state state) }
    ensures { Advances (view_tokens tokens.now) place result }
{
    let token = &tokens[place];
    let header = is_header(tokens, place);
    match step(alloc, state, token, header)? {
        Turn::Next(next) => moved(tokens, place, Some(next)),
        Turn::Stuck => moved(tokens, place, None),
        Turn::Reads(purpose, span, suites) => {
            expression(alloc, tokens, place, purpose, span, suites)
        }
        Turn::Matches(partial_match, span, suites) => {
            pattern(alloc, tokens, place, partial_match, span, suites)
        }
    }
}
