// F-strings, whose fields are expressions of their own.

ghost use Rattle.std.specs.Prelude.{◌≡◌, ◌≤◌, IfOk};
ghost use Rattle.py_token.specs.View.{view_kind};
ghost use Rattle.py_syntax.specs.Kinds.{bare_kind};
ghost use Rattle.py_syntax.specs.Spelling.{HEIGHT};
ghost use Rattle.py_grammar.specs.Machine.{Ctx, parts};
ghost use Rattle.py_parse_fields.specs.Order.{plain_pieces, field_tree};
ghost use Rattle.py_parse_expr.specs.ExprStacks.{Valid};
ghost use Rattle.py_parse_expr.specs.ExprTurns.{view_at, ValidAt};
ghost use Rattle.py_parse_expr.specs.ExprFields.{takes_string, has_spelled_fields, HasPieces, ended_turn, IsField, AreParts, Takes};

use crate::expr_classes::{TokenClass, class_of};
use crate::expr_limits::step;
use crate::expr_nodes::{Fields, Measured, higher};
use crate::expr_stack::{Goal, Stack};
use crate::expr_turns::{Progress, Turn};
use py_parse_fields::is_spelled;
use py_parse_fields::operators::Precedence;
use py_parse_fields::token_classes::Symbol;
use py_syntax::FormatPart;
use py_text::NoMemory;
use py_token::{Piece, Token, TokenKind};
use std::alloc::Global;

/// Why the fields of an f-string have no trees within the limit.
#[derive(Drop)]
pub enum Unread {
    /// A field is no expression.
    Unspelled,
    /// A field is too high, if it is an expression.
    TooDeep,
}

/// The pieces of an f-string.
fn pieces_of(kind: &TokenKind) -> Option<&[Piece]>
    ensures { HasPieces (bare_kind (view_kind kind.now)) result }
{
    match kind {
        TokenKind::Name(_) => None,
        TokenKind::Keyword(_) => None,
        TokenKind::Int(_) => None,
        TokenKind::Str(_) => None,
        TokenKind::FString(pieces) => Some(pieces.as_slice()),
        TokenKind::Mark(_) => None,
        TokenKind::Newline => None,
        TokenKind::Indent => None,
        TokenKind::Dedent => None,
        TokenKind::End => None,
    }
}

/// Whether a string may stand here.
fn takes_string(progress: &Progress) -> bool
    ensures { (k : Ctx) → result ≡ takes_string (view_at progress.now k) }
{
    match progress {
        Progress::Want(_) => true,
        Progress::Have(_) => false,
        Progress::Strings(_) => true,
        Progress::AfterOpen => true,
        Progress::AfterComma(_) => true,
        Progress::AfterTarget(_) => true,
        Progress::ItemsOpen(_) => true,
        Progress::ItemsComma(_, _) => true,
        Progress::DictOpen => true,
        Progress::DictComma(_) => true,
        Progress::IndexOpen(_) => true,
        Progress::SliceColon(_, _) => true,
        Progress::AfterDot(_) => false,
        Progress::AfterNot(_) => false,
        Progress::AfterIs(_) => false,
        Progress::AfterIsNot(_) => false,
        Progress::Linked(_) => false,
    }
}

/// The tree of a field after its last token.
fn ended(turn: Turn) -> Result<Measured, Unread>
    ensures { result ≡ ended_turn turn }
{
    match turn {
        Turn::Next(progress) => {
            drop(progress);
            Err(Unread::Unspelled)
        }
        Turn::Stuck => Err(Unread::Unspelled),
        Turn::Deep => Err(Unread::Unspelled),
        Turn::Left(measured) => Ok(measured),
    }
}

/// What a token does within the limit. An f-string that is said to be too high may have a field
/// that is no expression.
#[cycle(turn)]
pub fn turn(
    alloc: Global,
    stack: &mut Stack,
    progress: Progress,
    kind: &TokenKind,
) -> Result<Turn, NoMemory>
    requires valid { Valid stack.old.limit stack.old }
    requires at { ValidAt progress }
    ensures { Takes progress kind.now stack.old stack.new result }
{
    let Some(pieces) = pieces_of(kind) else {
        return step(alloc, stack, progress, class_of(kind)?);
    };
    if !takes_string(&progress) {
        return step(alloc, stack, progress, TokenClass::Symbol(Symbol::Other));
    }
    match fields(alloc, pieces, stack.limit)? {
        Ok(fields) => step(alloc, stack, progress, TokenClass::Format(fields)),
        Err(Unread::Unspelled) => Ok(Turn::Stuck),
        Err(Unread::TooDeep) => Ok(Turn::Deep),
    }
}

/// The trees of the fields of an f-string that is to be at most that high.
#[cycle(turn)]
fn fields(alloc: Global, pieces: &[Piece], limit: usize) -> Result<Result<Fields, Unread>, NoMemory>
    requires { limit ≤ HEIGHT }
    ensures { IfOk result (AreParts limit (parts (plain_pieces pieces.now))) }
{
    if limit == 0 {
        return Ok(Err(Unread::TooDeep));
    }
    let mut parts = Vec::new(alloc);
    let mut height = 0;
    'pieces: for piece in pieces {
        match piece {
            Piece::Chars(text) => parts.push(FormatPart::Chars(text.copy()?))?,
            Piece::Field(tokens) => match field(alloc, tokens, limit - 1)? {
                Ok(measured) => {
                    height = higher(height, measured.height);
                    parts.push(FormatPart::Field(Box::into_inner(measured.expr)))?;
                }
                Err(unread) => return Ok(Err(unread)),
            },
        }
    }
    Ok(Ok(Fields { parts, height }))
}

/// The tree of a field within a limit.
#[cycle(turn)]
fn field(
    alloc: Global,
    tokens: &[Token],
    limit: usize,
) -> Result<Result<Measured, Unread>, NoMemory>
    requires { limit ≤ HEIGHT }
    ensures { IfOk result (IsField limit (field_tree tokens.now)) }
{
    let mut stack = Stack::new(alloc, limit, Goal::Any);
    let mut progress = Progress::Want(Precedence::Exprs);
    'tokens: for token in tokens {
        match turn(alloc, &mut stack, progress, &token.kind)? {
            Turn::Next(next) => progress = next,
            Turn::Stuck => return Ok(Err(Unread::Unspelled)),
            Turn::Deep => return Ok(Err(Unread::TooDeep)),
            Turn::Left(measured) => {
                drop(measured);
                return Ok(Err(Unread::Unspelled));
            }
        }
    }
    Ok(ended(step(
        alloc,
        &mut stack,
        progress,
        TokenClass::Symbol(Symbol::Other),
    )?))
}

/// Whether the fields of a token are expressions.
pub fn has_spelled_fields(alloc: Global, kind: &TokenKind) -> Result<bool, NoMemory>
    ensures { IfOk result (λ b. b ≡ has_spelled_fields (bare_kind (view_kind kind.now))) }
{
    match pieces_of(kind) {
        Some(pieces) => is_spelled(alloc, pieces),
        None => Ok(true),
    }
}
