// Modules.

ghost use Rattle.py_token.specs.View.{view_tokens};
ghost use Rattle.py_parse.specs.Refusal.{IsParsed};

use crate::error::SyntaxError;
use crate::progress::{advance, unexpected};
use py_statements::begun;
use py_syntax::Module;
use py_token::Token;
use std::alloc::Global;

/// The tree of a module from the tokens of its source, or why there is none.
pub fn parse(alloc: Global, tokens: &[Token]) -> Result<Module, SyntaxError>
    ensures { IsParsed (view_tokens tokens.now) result }
{
    let mut state = begun(alloc);
    let mut place = 0;
    'tokens: while place < tokens.len() {
        let progress = advance(alloc, tokens, place, state)?;
        state = progress.state;
        place = progress.next;
    }
    match state.body() {
        Some(body) => Ok(Module { body }),
        None => Err(unexpected(tokens, place)),
    }
}
