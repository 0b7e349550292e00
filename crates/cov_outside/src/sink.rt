// Where a program's output goes.
ghost use Rattle.std.specs.Prelude.{◌≡◌, ℕ, ◌≤◌, List, ◌++◌, OnOk, OnErr, IsErrOf};
ghost use Rattle.cov_outside.specs.declared.sink.SinkError.TheVariants.{NoMemory};
ghost use Rattle.cov_outside.specs.Counts.{greatest, Rose};
ghost use Rattle.cov_outside.specs.Prefixes.{GainsPrefix};

use std::alloc::{AllocError, Global};
use thiserror::Error;

/// Why a piece wasn't written.
#[derive(Clone, Copy, Debug, PartialEq, Eq, Error)]
pub enum SinkError {
    #[error("writing failed")]
    Failed,
    #[error("no memory")]
    NoMemory,
}

impl From<AllocError> for SinkError {
    ghost from_gives = { λ _ e. e ≡ NoMemory };

    fn from(_error: AllocError) -> SinkError {
        SinkError::NoMemory
    }
}

/// A sink for bytes.
pub trait Sink {
    // Whether the sink tells the bytes that it holds.
    ghost tells: { Type 0 };

    // The bytes that it holds, where they are told.
    ghost contents: { Self → List ℕ };

    // Whether a write may find no memory.
    ghost allocates: { Type 0 };

    // How often a write has failed.
    ghost faults: { Self → ℕ };

    /// Writes the whole piece. After a refusal a prefix of it was written.
    fn write(&mut self, alloc: Global, piece: &[u8]) -> Result<(), SinkError>
        ensures ok { tells → OnOk result (contents self.new ≡ contents self.old ++ piece.now) }
        ensures err { tells
            → OnErr result (GainsPrefix (contents self.old) (contents self.new) piece.now) }

        ensures count { faults self.old ≤ faults self.new }
        ensures failed { IsErrOf result SinkError.Failed
            → Rose (faults self.old) (faults self.new) }
        ensures no_memory { IsErrOf result SinkError.NoMemory → allocates };

    // The count stands still at the greatest number of 64 bits.
    ghost bounded: { (sink : Self) → faults sink ≤ greatest };
}
