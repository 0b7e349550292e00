// Tokens but f-strings, at a place of a text.

ghost use Rattle.std.specs.Prelude.{◌≡◌, ◌≤◌, ◌<◌, ◌+◌, length, suc};
ghost use Rattle.py_token.specs.Source.{line_count, most_lines};
ghost use Rattle.py_token.specs.Rules.{is_quote, begins_quote, is_raw_prefix, string_at, raw_string, marked};
ghost use Rattle.py_token.specs.Marks.{mark_at};
ghost use Rattle.py_token.specs.ViewMatch.{view_match, word_text, number_text_at, plain_token_of};
ghost use Rattle.py_token.specs.Answers.{Gives};

use crate::characters::{after, doubled, front, split_first};
use crate::error::TokenError;
use crate::marks::mark_at;
use crate::numbers::{number_kind, number_len};
use crate::strings::{Opening, after_marks, text_body};
use crate::token::TokenKind;
use crate::words::{begins_name, name_len, word_kind};
use std::alloc::Global;

/// A token's kind, how many of its characters stand after the first, and the line where it ends.
#[derive(Drop)]
pub struct Match {
    pub kind: TokenKind,
    pub after: usize,
    pub next: u32,
}

pub fn is_quote(c: char) -> bool
    ensures { result ≡ is_quote c }
{
    c == '\'' || c == '"'
}

pub fn begins_quote(chars: &[char]) -> bool
    ensures { result ≡ begins_quote chars.now }
{
    match split_first(chars) {
        Some((c, _)) => is_quote(c),
        None => false,
    }
}

fn is_raw_prefix(c: char) -> bool
    ensures { result ≡ is_raw_prefix c }
{
    c == 'r' || c == 'R'
}

/// A string, with these characters after its first quote.
fn string_at(
    alloc: Global,
    raw: bool,
    line: u32,
    quote: char,
    others: &[char],
) -> Result<Match, TokenError>
    requires { line + line_count others.now ≤ suc most_lines }
    ensures { Gives view_match result (string_at raw line quote others.now) }
{
    let triple = doubled(quote, others);
    let opening = Opening {
        raw,
        quote,
        triple,
        line,
    };
    let text = after_marks(triple, others);
    let body = text_body(alloc, opening, text)?;
    Ok(Match {
        kind: TokenKind::Str(body.text),
        after: others.len() - body.left,
        next: body.next,
    })
}

/// A raw string, with these characters after its prefix.
fn raw_string(alloc: Global, line: u32, others: &[char]) -> Result<Match, TokenError>
    requires { line + line_count others.now ≤ suc most_lines }
    ensures { Gives view_match result (raw_string line others.now) }
{
    let Some((quote, rest)) = split_first(others) else {
        return Err(TokenError::BadCharacter(line));
    };
    let matched = string_at(alloc, true, line, quote, rest)?;
    Ok(Match {
        kind: matched.kind,
        after: matched.after + 1,
        next: matched.next,
    })
}

/// The word at the front.
fn word_at(alloc: Global, line: u32, chars: &[char]) -> Result<Match, TokenError>
    requires { 0 < length chars.now }
    ensures { Gives view_match result (word_text line chars.now) }
{
    let len = name_len(after(chars, 1));
    let kind = word_kind(alloc, front(chars, len + 1))?;
    Ok(Match {
        kind,
        after: len,
        next: line,
    })
}

/// The number at the front.
fn number_at(line: u32, chars: &[char]) -> Result<Match, TokenError>
    requires { 0 < length chars.now }
    ensures { Gives view_match result (number_text_at line chars.now) }
{
    let len = number_len(after(chars, 1));
    let kind = number_kind(front(chars, len + 1), line)?;
    Ok(Match {
        kind,
        after: len,
        next: line,
    })
}

fn marked(line: u32, c: char, others: &[char]) -> Result<Match, TokenError>
    ensures { Gives view_match result (marked line (mark_at c others.now)) }
{
    match mark_at(c, others) {
        Some((mark, after)) => Ok(Match {
            kind: TokenKind::Mark(mark),
            after,
            next: line,
        }),
        None => Err(TokenError::BadCharacter(line)),
    }
}

/// The longest token at the front.
#[tactic(auto, unfolding(crate::specs::Rules::plain_token))]
pub fn plain_token(alloc: Global, line: u32, chars: &[char]) -> Result<Match, TokenError>
    requires some { 0 < length chars.now }
    requires lines { line + line_count chars.now ≤ suc most_lines }
    ensures { Gives view_match result (plain_token_of line chars.now) }
{
    let c = chars[0];
    let others = after(chars, 1);
    if is_quote(c) {
        return string_at(alloc, false, line, c, others);
    }
    if is_raw_prefix(c) && begins_quote(others) {
        return raw_string(alloc, line, others);
    }
    if begins_name(c) {
        return word_at(alloc, line, chars);
    }
    if c.is_ascii_digit() {
        return number_at(line, chars);
    }
    marked(line, c, others)
}
