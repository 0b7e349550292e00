// Why nothing was read.

ghost use Rattle.std.specs.Prelude.{◌≡◌};
ghost use Rattle.py_grammar.specs.declared.error.ReadError.TheVariants.{NoMemory};

use std::alloc::AllocError;
use thiserror::Error;

/// Why nothing was read, with the place of the token.
#[derive(Debug, Drop, Error)]
pub enum ReadError {
    /// No tree goes on with the token, or the list ends there.
    #[error("token {0}: a token that can't stand here")]
    Unexpected(usize),
    /// With the token the tree is higher than 200 nodes.
    #[error("token {0}: the tree is too deep")]
    TooDeep(usize),
    #[error("out of memory")]
    NoMemory,
}

impl From<AllocError> for ReadError {
    ghost from_gives = { λ _ e. e ≡ NoMemory };

    fn from(_error: AllocError) -> ReadError {
        ReadError::NoMemory
    }
}
