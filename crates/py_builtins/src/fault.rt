// Why a call is given up, and writing a piece.

ghost use Rattle.std.specs.Prelude.{◌≡◌, ◌≤◌, ◌++◌, OnOk, OnErr, IsErrOf};
ghost use Rattle.cov_outside.specs.Counts.{Rose};
ghost use Rattle.cov_outside.specs.Prefixes.{GainsPrefix};
ghost use Rattle.py_builtins.specs.declared.fault.RunFault.TheVariants.{NoMemory};

use cov_outside::{Sink, SinkError};
use std::alloc::{AllocError, AllocFailed, Global};
use thiserror::Error;

/// Why a call is given up.
#[derive(Clone, Copy, Debug, PartialEq, Eq, Error)]
pub enum RunFault {
    #[error("reading input failed")]
    ReadFault,
    #[error("writing output failed")]
    WriteFault,
    #[error("no memory")]
    NoMemory,
}

impl From<AllocError> for RunFault {
    ghost from_gives = { λ _ e. e ≡ NoMemory };

    fn from(_error: AllocError) -> RunFault {
        RunFault::NoMemory
    }
}

impl<T: Drop> From<AllocFailed<T>> for RunFault {
    ghost from_gives = { λ _ e. e ≡ NoMemory };

    fn from(_error: AllocFailed<T>) -> RunFault {
        RunFault::NoMemory
    }
}

/// Writes the whole piece, or a prefix of it before a fault.
pub fn write<O: Sink>(alloc: Global, out: &mut O, piece: &[u8]) -> Result<(), RunFault>
    ensures written { O.tells → OnOk result (O.contents out.new ≡ O.contents out.old ++ piece.now) }
    ensures gained { O.tells
        → OnErr result (GainsPrefix (O.contents out.old) (O.contents out.new) piece.now) }

    ensures count { O.faults out.old ≤ O.faults out.new }
    ensures write_fault { IsErrOf result RunFault.WriteFault
        → Rose (O.faults out.old) (O.faults out.new) }
    ensures no_read_fault { IsErrOf result RunFault.ReadFault → ⊥ }
{
    match out.write(alloc, piece) {
        Ok(()) => Ok(()),
        Err(SinkError::Failed) => Err(RunFault::WriteFault),
        Err(SinkError::NoMemory) => Err(RunFault::NoMemory),
    }
}
