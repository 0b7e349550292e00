// Whether the fields of an f-string are expressions.

ghost use Rattle.std.specs.Prelude.{◌≡◌, ◌↔◌, IfOk, IsTrue, is_some};
ghost use Rattle.py_grammar.specs.Machine.{parts};
ghost use Rattle.py_grammar.specs.Refusal.{AreSpelled};
ghost use Rattle.py_parse_fields.specs.Reader.{view_turn, is_left};
ghost use Rattle.py_parse_fields.specs.Order.{plain_pieces, WaitsFor, AsksField, AsksPieces};

use crate::operators::Precedence;
use crate::reader::{Progress, Reader, Turn, act};
use crate::token_classes::{Symbol, TokenClass, mark_symbol, word_class};
use py_text::NoMemory;
use py_token::{Piece, Token, TokenKind};
use std::alloc::Global;

fn is_left(turn: Turn) -> bool
    ensures { result ≡ is_left (view_turn turn) }
{
    matches!(turn, Turn::Left)
}

/// What a token is. The fields of an f-string wait to be asked.
fn class_of<'a>(kind: &'a TokenKind, waiting: &mut Vec<&'a [Piece]>) -> Result<TokenClass, NoMemory>
    ensures { IfOk result (WaitsFor kind.now waiting.old waiting.new) }
{
    match kind {
        TokenKind::Name(_) => Ok(TokenClass::Name),
        TokenKind::Keyword(word) => Ok(word_class(*word)),
        TokenKind::Int(_) => Ok(TokenClass::Number),
        TokenKind::Str(_) => Ok(TokenClass::Text),
        TokenKind::FString(pieces) => {
            waiting.push(pieces.as_slice())?;
            Ok(TokenClass::Text)
        }
        TokenKind::Mark(mark) => Ok(TokenClass::Symbol(mark_symbol(*mark))),
        _ => Ok(TokenClass::Symbol(Symbol::Other)),
    }
}

/// Whether some `exprs` has these tokens, but for the f-strings among them, which wait.
fn is_field<'a>(
    alloc: Global,
    tokens: &'a [Token],
    waiting: &mut Vec<&'a [Piece]>,
) -> Result<bool, NoMemory>
    ensures { IfOk result (AsksField tokens.now waiting.old waiting.new) }
{
    let mut reader = Reader {
        frames: Vec::new(alloc),
        progress: Progress::Want(Precedence::Exprs),
    };
    'tokens: for token in tokens {
        match act(reader, class_of(&token.kind, waiting)?)? {
            Turn::Next(next) => reader = next,
            Turn::Stuck => return Ok(false),
            Turn::Left => return Ok(false),
        }
    }
    Ok(is_left(act(reader, TokenClass::Symbol(Symbol::Other))?))
}

/// Whether the fields of an f-string are expressions, but for the f-strings in them, which wait.
fn are_fields<'a>(
    alloc: Global,
    pieces: &'a [Piece],
    waiting: &mut Vec<&'a [Piece]>,
) -> Result<bool, NoMemory>
    ensures { IfOk result (AsksPieces pieces.now waiting.old waiting.new) }
{
    'pieces: for piece in pieces {
        match piece {
            Piece::Chars(_) => {}
            Piece::Field(tokens) => {
                if !is_field(alloc, tokens, waiting)? {
                    return Ok(false);
                }
            }
        }
    }
    Ok(true)
}

/// Whether the fields of an f-string are expressions, as the machine reads them.
fn are_read(alloc: Global, pieces: &[Piece]) -> Result<bool, NoMemory>
    ensures { IfOk result (λ b. b ≡ is_some (parts (plain_pieces pieces.now))) }
{
    let mut waiting: Vec<&[Piece]> = Vec::new(alloc);
    waiting.push(pieces)?;
    'waiting: while let Some(next) = waiting.pop() {
        if !are_fields(alloc, next, &mut waiting)? {
            return Ok(false);
        }
    }
    Ok(true)
}

/// Whether the tokens of each field of an f-string are those of some `exprs` (Language Reference,
/// 2.4.3). Nothing is built, and brackets and f-strings may stand as deep as they like.
pub fn is_spelled(alloc: Global, pieces: &[Piece]) -> Result<bool, NoMemory>
    ensures { IfOk result (λ b. IsTrue b ↔ AreSpelled (plain_pieces pieces.now)) }
{
    are_read(alloc, pieces)
}
