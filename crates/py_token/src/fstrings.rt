// F-strings after their opening marks.

ghost use Rattle.std.specs.Prelude.{◌≡◌, ◌≤◌, ◌<◌, ◌+◌, ◌^◌, ◌∷◌, [], length, false, OnOk, suc};
ghost use Rattle.py_token.specs.Source.{line_count, most_lines};
ghost use Rattle.py_token.specs.Fields.{reach, chars_item, fstring_at};
ghost use Rattle.py_token.specs.StringItems.{item_of};
ghost use Rattle.py_token.specs.View.{view_piece};
ghost use Rattle.py_token.specs.ViewMatch.{view_match, view_field};
ghost use Rattle.py_token.specs.ViewPieces.{opens_field, piece_after, field_after, ended, AppendsPieces, AppendsField, pieces_after, view_fstring, token_at_of};
ghost use Rattle.py_token.specs.Answers.{Gives};

use crate::characters::{after, begins, doubled, front, split_first};
use crate::error::TokenError;
use crate::fields::{FieldBody, field_tokens, is_format_prefix, limit_fault, reach};
use crate::plain::{Match, begins_quote, plain_token};
use crate::strings::{Denoted, Opening, StringItem, after_marks, push_denoted, text_item};
use crate::token::{Piece, TokenKind};
use py_text::Text;
use std::alloc::{AllocError, Global};
use std::mem;

/// Whether a `{` opens a field here.
fn opens_field(c: char, others: &[char]) -> bool
    ensures { result ≡ opens_field c others.now }
{
    c == '{' && !begins('{', others)
}

/// What stands at a place of an f-string where no field opens.
#[tactic(auto, unfolding(crate::specs::Fields::fstring_item))]
fn piece_item(
    opening: Opening,
    line: u32,
    c: char,
    others: &[char],
) -> Result<StringItem, TokenError>
    requires on_a_line { line ≤ most_lines }
    requires not_raw { opening.raw ≡ false }
    requires no_field { false ≡ opens_field c others.now }
    ensures { chars_item (item_of result) ≡ piece_after opening line c others.now }
{
    if c == '{' {
        return Ok(StringItem::Holds(Denoted::One('{'), 1, line));
    }
    if c == '}' {
        if begins('}', others) {
            return Ok(StringItem::Holds(Denoted::One('}'), 1, line));
        }
        return Err(TokenError::BadCharacter(line));
    }
    text_item(opening, line, c, others)
}

/// How many characters are left at the end of a field's reach. It is known from an earlier field
/// where the reach goes on, so that no character is looked at twice.
fn limit_at(opening: Opening, limit: usize, others: &[char]) -> usize
    requires { limit ≤ length others.now
        → reach opening.quote opening.triple others.now + limit ≡ length others.now }
    ensures { reach opening.quote opening.triple others.now + result ≡ length others.now }
{
    if limit <= others.len() {
        return limit;
    }
    others.len() - reach(opening, others)
}

/// A field with a reach of `n` characters after its `{`.
fn field_at(
    alloc: Global,
    opening: Opening,
    line: u32,
    others: &[char],
    n: usize,
) -> Result<FieldBody, TokenError>
    requires reached { n ≡ reach opening.quote opening.triple others.now }
    requires lines { line + line_count others.now ≤ suc most_lines }
    requires few { length others.now < 2 ^ 63 }
    ensures { Gives view_field result (field_after opening line others.now) }
{
    let limit = limit_fault(opening, line, after(others, n));
    field_tokens(alloc, limit, line, front(others, n))
}

/// Ends a piece of characters, where there are any.
fn end_chars(pieces: &mut Vec<Piece>, held: Text) -> Result<(), AllocError>
    ensures { OnOk result (AppendsPieces (ended held) pieces.old pieces.new) }
{
    if held.is_empty() {
        return Ok(());
    }
    push_piece(pieces, Piece::Chars(held))
}

fn push_piece(pieces: &mut Vec<Piece>, piece: Piece) -> Result<(), AllocError>
    ensures { OnOk result (AppendsPieces (view_piece piece ∷ []) pieces.old pieces.new) }
{
    pieces.push(piece)?;
    Ok(())
}

/// A field with a reach of `n` characters, after the characters that were held. Answers how many
/// characters it has after its `{`.
fn push_field(
    alloc: Global,
    pieces: &mut Vec<Piece>,
    held: Text,
    opening: Opening,
    line: u32,
    others: &[char],
    n: usize,
) -> Result<usize, TokenError>
    requires reached { n ≡ reach opening.quote opening.triple others.now }
    requires lines { line + line_count others.now ≤ suc most_lines }
    requires few { length others.now < 2 ^ 63 }
    ensures { AppendsField result opening line others.now held pieces.old pieces.new }
{
    let field = field_at(alloc, opening, line, others, n)?;
    let left = field.left;
    end_chars(pieces, held)?;
    push_piece(pieces, Piece::Field(field.tokens))?;
    Ok(n - left)
}

/// An f-string after its opening marks: its pieces, how many characters are left after its closing
/// marks, and the line where it ends.
#[derive(Drop)]
pub struct FStringBody {
    pub pieces: Vec<Piece>,
    pub left: usize,
    pub next: u32,
}

pub fn fstring_body(
    alloc: Global,
    opening: Opening,
    chars: &[char],
) -> Result<FStringBody, TokenError>
    requires not_raw { opening.raw ≡ false }
    requires lines { opening.line + line_count chars.now ≤ suc most_lines }
    requires few { length chars.now < 2 ^ 63 }
    ensures { Gives view_fstring result (pieces_after opening chars.now) }
{
    let mut pieces = Vec::new(alloc);
    let mut held = Text::new(alloc);
    let mut line = opening.line;
    let mut rest = chars;
    let mut limit = usize::MAX;
    'string_items: while let Some((c, others)) = split_first(rest) {
        if opens_field(c, others) {
            limit = limit_at(opening, limit, others);
            let ended = mem::replace(&mut held, Text::new(alloc));
            let n = push_field(
                alloc,
                &mut pieces,
                ended,
                opening,
                line,
                others,
                others.len() - limit,
            )?;
            rest = after(others, n);
            continue;
        }
        match piece_item(opening, line, c, others)? {
            StringItem::Closing(n) => {
                let left = others.len() - n;
                end_chars(&mut pieces, held)?;
                return Ok(FStringBody {
                    pieces,
                    left,
                    next: line,
                });
            }
            StringItem::Holds(denoted, n, next) => {
                push_denoted(&mut held, denoted)?;
                line = next;
                rest = after(others, n);
            }
        }
    }
    Err(TokenError::OpenString(opening.line))
}

/// An f-string, with these characters after its prefix.
fn fstring_at(alloc: Global, line: u32, others: &[char]) -> Result<Match, TokenError>
    requires lines { line + line_count others.now ≤ suc most_lines }
    requires few { length others.now < 2 ^ 63 }
    ensures { Gives view_match result (fstring_at line others.now) }
{
    let Some((quote, rest)) = split_first(others) else {
        return Err(TokenError::BadCharacter(line));
    };
    let triple = doubled(quote, rest);
    let opening = Opening {
        raw: false,
        quote,
        triple,
        line,
    };
    let text = after_marks(triple, rest);
    let body = fstring_body(alloc, opening, text)?;
    Ok(Match {
        kind: TokenKind::FString(body.pieces),
        after: rest.len() - body.left + 1,
        next: body.next,
    })
}

/// The token at the front of a text.
#[tactic(auto, unfolding(crate::specs::Fields::token_at))]
pub fn token_at(alloc: Global, line: u32, chars: &[char]) -> Result<Match, TokenError>
    requires some { 0 < length chars.now }
    requires lines { line + line_count chars.now ≤ suc most_lines }
    requires few { length chars.now < 2 ^ 63 }
    ensures { Gives view_match result (token_at_of line chars.now) }
{
    let others = after(chars, 1);
    if is_format_prefix(chars[0]) && begins_quote(others) {
        return fstring_at(alloc, line, others);
    }
    plain_token(alloc, line, chars)
}
