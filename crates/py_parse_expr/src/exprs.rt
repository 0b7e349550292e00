// Expressions, and the targets of `for`.

ghost use Rattle.std.specs.Prelude.{◌≡◌, ◌≤◌, length};
ghost use Rattle.py_token.specs.View.{view_kind, view_tokens};
ghost use Rattle.py_syntax.specs.Kinds.{bare, bare_kind};
ghost use Rattle.py_grammar.specs.Machine.{Outside, Want, start};
ghost use Rattle.py_parse_fields.specs.Frames.{view_precedence};
ghost use Rattle.py_parse_expr.specs.ExprStacks.{view_goal, ValidGoal};
ghost use Rattle.py_parse_expr.specs.ExprReads.{goal_of, FollowsMachine, is_end};
ghost use Rattle.py_parse_expr.specs.Refusal.{Parses};

use crate::expr_fields::{has_spelled_fields, turn};
use crate::expr_stack::{Goal, Stack};
use crate::expr_turns::{Progress, Turn};
use py_grammar::ReadError;
use py_parse_fields::operators::Precedence;
use py_syntax::{Expr, HEIGHT_LIMIT};
use py_token::{Token, TokenKind};
use std::alloc::Global;

/// Which expression is read.
#[derive(Clone, Copy)]
pub enum ExprPart {
    /// One or several with commas.
    Any,
    One,
    /// The target of a `for`.
    Target,
}

/// An expression, and the place of the token after it.
#[derive(Drop)]
pub struct ExprRead {
    pub expr: Box<Expr>,
    pub next: usize,
}

fn goal(part: ExprPart) -> Goal
    ensures view { view_goal result ≡ goal_of part }
    ensures valid { ValidGoal result }
{
    match part {
        ExprPart::Any => Goal::Any,
        ExprPart::One => Goal::One,
        ExprPart::Target => Goal::Target,
    }
}

/// The precedence at which it begins.
fn precedence(part: ExprPart) -> Precedence
    ensures { start (goal_of part) ≡ Want (view_precedence result) (Outside (goal_of part)) }
{
    match part {
        ExprPart::Any => Precedence::Exprs,
        ExprPart::One => Precedence::Expr,
        ExprPart::Target => Precedence::Post,
    }
}

/// Reads an expression from a place in the tokens up to the first token that goes on with none.
/// Places count from 0.
pub fn read_expr(
    alloc: Global,
    tokens: &[Token],
    at: usize,
    part: ExprPart,
) -> Result<ExprRead, ReadError>
    requires { at ≤ length tokens.now }
    ensures follows { FollowsMachine (bare (view_tokens tokens.now)) at part result }
{
    let mut stack = Stack::new(alloc, HEIGHT_LIMIT, goal(part));
    let mut progress = Progress::Want(precedence(part));
    let mut place = at;
    'tokens: while place < tokens.len() {
        match turn(alloc, &mut stack, progress, &tokens[place].kind)? {
            Turn::Next(next) => progress = next,
            Turn::Stuck => return Err(ReadError::Unexpected(place)),
            Turn::Deep => {
                if has_spelled_fields(alloc, &tokens[place].kind)? {
                    return Err(ReadError::TooDeep(place));
                }
                return Err(ReadError::Unexpected(place));
            }
            Turn::Left(measured) => {
                return Ok(ExprRead {
                    expr: measured.expr,
                    next: place,
                });
            }
        }
        place += 1;
    }
    drop(progress);
    Err(ReadError::Unexpected(place))
}

fn is_end(kind: &TokenKind) -> bool
    ensures { result ≡ is_end (bare_kind (view_kind kind.now)) }
{
    match kind {
        TokenKind::Name(_) => false,
        TokenKind::Keyword(_) => false,
        TokenKind::Int(_) => false,
        TokenKind::Str(_) => false,
        TokenKind::FString(_) => false,
        TokenKind::Mark(_) => false,
        TokenKind::Newline => false,
        TokenKind::Indent => false,
        TokenKind::Dedent => false,
        TokenKind::End => true,
    }
}

/// Reads a list of tokens that is one expression, or several with commas, and the end. Places count
/// from 0.
pub fn parse_expr(alloc: Global, tokens: &[Token]) -> Result<Expr, ReadError>
    ensures { Parses (bare (view_tokens tokens.now)) result }
{
    let read = read_expr(alloc, tokens, 0, ExprPart::Any)?;
    let next = read.next;
    if !is_end(&tokens[next].kind) {
        drop(read);
        return Err(ReadError::Unexpected(next));
    }
    if next + 1 < tokens.len() {
        drop(read);
        return Err(ReadError::Unexpected(next + 1));
    }
    Ok(Box::into_inner(read.expr))
}
