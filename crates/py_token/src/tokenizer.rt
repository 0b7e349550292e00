// The tokens of a source.

ghost use Rattle.std.specs.Prelude.{◌≢◌, ◌≤◌, ◌<◌, ◌^◌, length, IfOk, IfErr};
ghost use Rattle.std.specs.Str.{chars};
ghost use Rattle.py_token.specs.Source.{line_count, most_lines, source_text};
ghost use Rattle.py_token.specs.Spelling.{spelling, Spells, StuckAt};
ghost use Rattle.py_token.specs.OnLines.{AreOnLines};
ghost use Rattle.py_token.specs.View.{view_tokens};
ghost use Rattle.py_token.specs.Answers.{Gives};

use crate::characters::after;
use crate::error::TokenError;
use crate::layout::{State, finish, put};
use crate::segments::front_segment;
use crate::source::{last_line, source_text};
use crate::token::Token;
use std::alloc::Global;

/// The tokens of a source of at most 65,535 lines. A token keeps the first and the last line of its
/// text; lines count from 1.
#[tactic(auto, unfolding(crate::specs::Spelling::Spells, crate::specs::Spelling::StuckAt))]
pub fn tokens(alloc: Global, source: &str) -> Result<Vec<Token>, TokenError>
    requires { line_count (chars source.now) ≤ most_lines }
    ensures spelled { IfOk result (λ v. Spells (chars source.now) (view_tokens v.items)) }
    ensures on_lines { IfOk result (λ v. AreOnLines (view_tokens v.items)) }
    ensures stuck { IfErr result (λ e. e ≢ TokenError.NoMemory → StuckAt (chars source.now) e) }
{
    let text = source_text(alloc, source)?;
    spelling(alloc, &text)
}

/// The tokens that characters spell, or the fault of the one place where they are stuck.
fn spelling(alloc: Global, chars: &[char]) -> Result<Vec<Token>, TokenError>
    requires lines { line_count chars.now ≤ most_lines }
    requires few { length chars.now < 2 ^ 63 }
    ensures { Gives (λ v. view_tokens v.items) result (spelling chars.now) }
{
    let last = last_line(chars);
    let mut tokens = Vec::new(alloc);
    let mut state = State {
        indents: Vec::new(alloc),
        brackets: Vec::new(alloc),
        begun: false,
        blanks: Vec::new(alloc),
        settled: false,
    };
    let mut line = 1;
    let mut rest = chars;
    'segments: while !rest.is_empty() {
        let segment = front_segment(alloc, line, rest)?;
        let next = segment.next;
        let len = segment.after + 1;
        put(alloc, &mut state, &mut tokens, segment.lexeme, line, next)?;
        line = next;
        rest = after(rest, len);
    }
    finish(state, &mut tokens, last)?;
    Ok(tokens)
}
