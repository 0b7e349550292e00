// The patterns of a `case`.

ghost use Rattle.std.specs.Prelude.{◌≡◌, ◌≤◌, length};
ghost use Rattle.py_syntax.specs.Spelling.{HEIGHT};
ghost use Rattle.py_parse_pattern.specs.Machine.{start};
ghost use Rattle.py_parse_pattern.specs.Rows.{view_reader, Valid};
ghost use Rattle.py_token.specs.View.{view_tokens};
ghost use Rattle.py_syntax.specs.Kinds.{bare};
ghost use Rattle.py_parse_pattern.specs.Reads.{FollowsMachine, IsRead};

use crate::limits::step;
use crate::nodes::Many;
use crate::reader::{Progress, Reader, Row, Rows, Turn};
use py_grammar::ReadError;
use py_syntax::Pattern;
use py_token::Token;
use std::alloc::Global;

/// The pattern of a `case`, and the place of the token after it.
#[derive(Drop)]
pub struct PatternRead {
    pub pattern: Pattern,
    pub next: usize,
}

/// A reader that has read nothing.
fn begun(alloc: Global) -> Reader
    ensures is { view_reader result ≡ start }
    ensures valid { Valid HEIGHT result }
{
    let row = Row {
        items: Many::new(alloc),
        alternatives: Many::new(alloc),
        depth: 0,
    };
    let rows = Rows {
        row,
        frames: Vec::new(alloc),
    };
    Reader {
        rows,
        progress: Progress::Want,
    }
}

/// Reads the pattern of a `case`, which may be a list with commas, from a place in the tokens up to
/// the first token that goes on with no pattern. Places count from 0.
pub fn read_patterns(alloc: Global, tokens: &[Token], at: usize) -> Result<PatternRead, ReadError>
    requires { at ≤ length tokens.now }
    ensures follows { FollowsMachine (bare (view_tokens tokens.now)) at result }
    ensures is_read { IsRead (bare (view_tokens tokens.now)) at result }
{
    let mut reader = begun(alloc);
    let mut place = at;
    'tokens: while place < tokens.len() {
        match step(alloc, reader, &tokens[place].kind)? {
            Turn::Next(next) => reader = next,
            Turn::Stuck => return Err(ReadError::Unexpected(place)),
            Turn::Deep => return Err(ReadError::TooDeep(place)),
            Turn::Left(measured) => {
                return Ok(PatternRead {
                    pattern: measured.pattern,
                    next: place,
                });
            }
        }
        place += 1;
    }
    Err(ReadError::Unexpected(place))
}
