// Why a list of tokens is that of no module.

ghost use Rattle.std.specs.Prelude.{◌≡◌};
ghost use Rattle.py_parse.specs.declared.error.SyntaxError.TheVariants.{NoMemory};

use std::alloc::AllocError;
use thiserror::Error;

/// What stands too deep in a tree.
#[derive(Clone, Copy, Debug)]
pub enum DepthKind {
    /// More than 200 nodes of expressions or patterns above each other.
    Expressions,
    /// More than 64 suites inside each other.
    Suites,
}

/// Why a list of tokens is that of no module, with the line of the first token that can't be taken.
/// Lines count from 1.
#[derive(Debug, Drop, Error)]
pub enum SyntaxError {
    /// No module goes on with the token, or the list ends there.
    #[error("line {0}: a token that can't stand here")]
    Unexpected(u32),
    /// Only modules past a limit go on with the token.
    #[error("line {1}: too deep")]
    TooDeep(DepthKind, u32),
    #[error("out of memory")]
    NoMemory,
}

impl From<AllocError> for SyntaxError {
    ghost from_gives = { λ _ e. e ≡ NoMemory };

    fn from(_error: AllocError) -> SyntaxError {
        SyntaxError::NoMemory
    }
}
