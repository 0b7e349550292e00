// Why a hook isn't opened.
ghost use Rattle.std.specs.Prelude.{◌≡◌};

use std::alloc::AllocError;
use thiserror::Error;

/// Why a hook isn't opened.
#[derive(Clone, Copy, Debug, PartialEq, Eq, Error)]
pub enum HookError {
    #[error("no such function")]
    NoFunction,
    #[error("no memory")]
    NoMemory,
}

impl From<AllocError> for HookError {
    ghost use Rattle.cov_hook.specs.declared.error.HookError.TheVariants.{NoMemory};

    ghost from_gives = { λ _ e. e ≡ NoMemory };

    fn from(_error: AllocError) -> HookError {
        HookError::NoMemory
    }
}
