// Why no list of tokens spells a text.

ghost use Rattle.std.specs.Prelude.{◌≡◌};
ghost use Rattle.py_token.specs.declared.error.TokenError.TheVariants.{NoMemory};

use std::alloc::{AllocError, AllocFailed};
use thiserror::Error;

/// Why no list of tokens spells a text, with the line of the place that can't be read. Lines count
/// from 1.
#[derive(Debug, Drop, Error)]
pub enum TokenError {
    /// A character that no rule takes, a bad escape or a malformed number.
    #[error("line {0}: a character that can't stand here")]
    BadCharacter(u32),
    /// The indentation of the line fits none of those that are open.
    #[error("line {0}: the indentation fits no block")]
    BadIndent(u32),
    /// The string that begins on the line has no end.
    #[error("line {0}: the string isn't closed")]
    OpenString(u32),
    /// The bracket on the line is the last one that was opened and not closed.
    #[error("line {0}: the bracket isn't closed")]
    OpenBracket(u32),
    /// A number above 9223372036854775807.
    #[error("line {0}: the number is too large")]
    WideNumber(u32),
    #[error("out of memory")]
    NoMemory,
}

impl From<AllocError> for TokenError {
    ghost from_gives = { λ _ e. e ≡ NoMemory };

    fn from(_error: AllocError) -> TokenError {
        TokenError::NoMemory
    }
}

impl<T: Drop> From<AllocFailed<T>> for TokenError {
    ghost from_gives = { λ _ e. e ≡ NoMemory };

    fn from(_error: AllocFailed<T>) -> TokenError {
        TokenError::NoMemory
    }
}
