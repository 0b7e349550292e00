// Lists of tokens.

ghost use Rattle.std.specs.Prelude.{◌∷◌, [], OnOk};
ghost use Rattle.py_token.specs.Plain.{token};
ghost use Rattle.py_token.specs.View.{view_kind};
ghost use Rattle.py_token.specs.ViewLayout.{Appends};

use crate::token::{Token, TokenKind};
use std::alloc::AllocError;

pub fn push_token(
    tokens: &mut Vec<Token>,
    kind: TokenKind,
    first: u32,
    last: u32,
) -> Result<(), AllocError>
    ensures { OnOk result (Appends (token (view_kind kind) first last ∷ []) tokens.old tokens.new) }
{
    tokens.push(Token { kind, first, last })?;
    Ok(())
}
