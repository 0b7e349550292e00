// The segments that a text is cut into.

ghost use Rattle.std.specs.Prelude.{◌≡◌, ◌≤◌, ◌<◌, ◌+◌, ◌^◌, length, suc};
ghost use Rattle.std.specs.List.{prefix_len};
ghost use Rattle.py_token.specs.Source.{line_count, most_lines};
ghost use Rattle.py_token.specs.Segments.{in_comment};
ghost use Rattle.py_token.specs.ViewSegments.{segment_of, token_segment_of, view_segment};
ghost use Rattle.py_token.specs.Answers.{Gives};

use crate::characters::{after, begins};
use crate::error::TokenError;
use crate::fields::is_blank;
use crate::fstrings::token_at;
use crate::token::TokenKind;
use std::alloc::Global;

/// A token, what stands between tokens, or the fault of a place where no rule takes anything.
#[derive(Drop)]
pub enum Lexeme {
    Spelled(TokenKind),
    Blank(char),
    Comment,
    LineEnd,
    JoinedEnd,
    Stuck(TokenError),
}

/// A segment, how many of its characters stand after the first, and the line after it.
#[derive(Drop)]
pub struct Segment {
    pub lexeme: Lexeme,
    pub after: usize,
    pub next: u32,
}

fn comment_len(chars: &[char]) -> usize
    ensures { result ≡ prefix_len in_comment chars.now }
{
    chars
        .iter()
        .take_while(|c| **c != '\n' && **c != '\r')
        .count()
}

/// The token at the front, or the fault of the place where no rule takes one.
fn token_segment(alloc: Global, line: u32, chars: &[char]) -> Result<Segment, TokenError>
    requires some { 0 < length chars.now }
    requires lines { line + line_count chars.now ≤ suc most_lines }
    requires few { length chars.now < 2 ^ 63 }
    ensures { Gives view_segment result (token_segment_of line chars.now) }
{
    match token_at(alloc, line, chars) {
        Ok(matched) => Ok(Segment {
            lexeme: Lexeme::Spelled(matched.kind),
            after: matched.after,
            next: matched.next,
        }),
        Err(TokenError::NoMemory) => Err(TokenError::NoMemory),
        Err(error) => Ok(Segment {
            lexeme: Lexeme::Stuck(error),
            after: 0,
            next: line,
        }),
    }
}

/// The longest segment at the front.
#[tactic(auto, unfolding(crate::specs::Segments::segment_at))]
pub fn front_segment(alloc: Global, line: u32, chars: &[char]) -> Result<Segment, TokenError>
    requires some { 0 < length chars.now }
    requires lines { line + line_count chars.now ≤ suc most_lines }
    requires few { length chars.now < 2 ^ 63 }
    ensures { Gives view_segment result (segment_of line chars.now) }
{
    let c = chars[0];
    let others = after(chars, 1);
    if is_blank(c) {
        return Ok(Segment {
            lexeme: Lexeme::Blank(c),
            after: 0,
            next: line,
        });
    }
    if c == '\n' {
        return Ok(Segment {
            lexeme: Lexeme::LineEnd,
            after: 0,
            next: line + 1,
        });
    }
    if c == '#' {
        return Ok(Segment {
            lexeme: Lexeme::Comment,
            after: comment_len(others),
            next: line,
        });
    }
    if c == '\\' && begins('\n', others) {
        return Ok(Segment {
            lexeme: Lexeme::JoinedEnd,
            after: 1,
            next: line + 1,
        });
    }
    token_segment(alloc, line, chars)
}
