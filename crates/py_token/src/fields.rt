// Fields of f-strings.

ghost use Rattle.std.specs.Prelude.{◌≡◌, ◌==◌, ◌&&◌, ◌≤◌, ◌<◌, ◌+◌, ◌^◌, length, suc};
ghost use Rattle.py_token.specs.Source.{line_count, most_lines};
ghost use Rattle.py_token.specs.View.{view_kind};
ghost use Rattle.py_token.specs.Fields.{is_blank, is_format_prefix, may_stand, reach, change_of, change_of_mark, field_tokens, field_fault, limit_fault, depth_after};
ghost use Rattle.py_token.specs.ViewMatch.{view_match, view_change, field_token_of, tokens_of, view_field};
ghost use Rattle.py_token.specs.Answers.{Gives};

use crate::characters::{after, split_first};
use crate::error::TokenError;
use crate::lists::push_token;
use crate::plain::{Match, begins_quote, plain_token};
use crate::strings::{Opening, closes};
use crate::token::{Mark, Token, TokenKind};
use std::alloc::Global;

pub fn is_blank(c: char) -> bool
    ensures { result ≡ is_blank c }
{
    c == ' ' || c == '\t'
}

pub fn is_format_prefix(c: char) -> bool
    ensures { result ≡ is_format_prefix c }
{
    c == 'f' || c == 'F'
}

/// Whether a character may stand in a field at all.
fn may_stand(opening: Opening, c: char, others: &[char]) -> bool
    ensures { result ≡ may_stand opening.quote opening.triple c others.now }
{
    !(c == '\\' || c == '#' || c == '\n' || c == '\r' || closes(opening, c, others))
}

/// How many characters stand before the first that may not.
#[tactic(auto, unfolding(crate::specs::Fields::reach))]
pub fn reach(opening: Opening, chars: &[char]) -> usize
    ensures { result ≡ reach opening.quote opening.triple chars.now }
{
    let mut rest = chars;
    'reached: while let Some((c, others)) = split_first(rest) {
        if !may_stand(opening, c, others) {
            return chars.len() - rest.len();
        }
        rest = others;
    }
    chars.len()
}

/// What is wrong with a field that meets these characters, of which the first may not stand in it.
pub fn limit_fault(opening: Opening, line: u32, chars: &[char]) -> TokenError
    ensures { result ≡ limit_fault opening.triple opening.line line chars.now }
{
    match split_first(chars) {
        None => TokenError::OpenString(opening.line),
        Some((c, _)) => {
            if c == '\n' && !opening.triple {
                return TokenError::OpenString(opening.line);
            }
            TokenError::BadCharacter(line)
        }
    }
}

fn field_fault(limit: TokenError, error: TokenError) -> TokenError
    ensures { result ≡ field_fault limit error }
{
    match error {
        TokenError::OpenString(_) => limit,
        other => other,
    }
}

/// What a token does to the brackets that are open.
#[derive(Clone, Copy)]
pub enum BracketChange {
    Opening,
    Shutting,
    Neither,
}

fn change_of_mark(mark: Mark) -> BracketChange
    ensures { view_change result ≡ change_of_mark mark }
{
    match mark {
        Mark::LeftParen | Mark::LeftBracket | Mark::LeftBrace => BracketChange::Opening,
        Mark::RightParen | Mark::RightBracket | Mark::RightBrace => BracketChange::Shutting,
        _ => BracketChange::Neither,
    }
}

pub fn change_of(kind: &TokenKind) -> BracketChange
    ensures { view_change result ≡ change_of (view_kind kind.now) }
{
    match kind {
        TokenKind::Mark(mark) => change_of_mark(*mark),
        _ => BracketChange::Neither,
    }
}

/// The token at the front of a field, where no other f-string can stand.
fn field_token(alloc: Global, line: u32, chars: &[char]) -> Result<Match, TokenError>
    requires some { 0 < length chars.now }
    requires lines { line + line_count chars.now ≤ suc most_lines }
    ensures { Gives view_match result (field_token_of line chars.now) }
{
    if is_format_prefix(chars[0]) && begins_quote(after(chars, 1)) {
        return Err(TokenError::BadCharacter(line));
    }
    plain_token(alloc, line, chars)
}

/// The tokens of a field, and how many characters are left after its `}`.
#[derive(Drop)]
pub struct FieldBody {
    pub tokens: Vec<Token>,
    pub left: usize,
}

fn depth_after(change: BracketChange, depth: usize) -> usize
    requires { depth < 2 ^ 63 }
    ensures { result ≡ depth_after (view_change change) depth }
{
    match change {
        BracketChange::Opening => depth + 1,
        BracketChange::Shutting => {
            if depth == 0 {
                return 0;
            }
            depth - 1
        }
        BracketChange::Neither => depth,
    }
}

fn ends_field(c: char, depth: usize) -> bool
    ensures { result ≡ ((c == 125) && (depth == 0)) }
{
    c == '}' && depth == 0
}

/// The tokens of a field up to the first `}` with no bracket of the field open. The characters are
/// those of its reach; a field that is not closed in them has the fault `limit`.
pub fn field_tokens(
    alloc: Global,
    limit: TokenError,
    line: u32,
    chars: &[char],
) -> Result<FieldBody, TokenError>
    requires lines { line + line_count chars.now ≤ suc most_lines }
    requires few { length chars.now < 2 ^ 63 }
    ensures { Gives view_field result (tokens_of (field_tokens limit line 0 0 chars.now)) }
{
    let mut tokens = Vec::new(alloc);
    let mut depth: usize = 0;
    let mut rest = chars;
    'tokens: while let Some((c, others)) = split_first(rest) {
        if ends_field(c, depth) {
            return Ok(FieldBody {
                tokens,
                left: others.len(),
            });
        }
        if is_blank(c) {
            rest = others;
            continue;
        }
        match field_token(alloc, line, rest) {
            Err(error) => return Err(field_fault(limit, error)),
            Ok(matched) => {
                depth = depth_after(change_of(&matched.kind), depth);
                rest = after(others, matched.after);
                push_token(&mut tokens, matched.kind, line, line)?;
            }
        }
    }
    Err(limit)
}
