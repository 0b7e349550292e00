//! What an answer means outside: its exit status, and whether it refuses the command.
ghost use Rattle.std.specs.Prelude.{◌≡◌};
ghost use Rattle.cov_why.specs.Answers.{is_refusal, plain_why};
ghost use Rattle.cov_why.specs.Statuses.{status_of, tests_status};

use crate::why::Why;

impl Why {
    /// The exit status.
    pub fn status(&self) -> u8
        ensures { result ≡ status_of (plain_why self.now) }
    {
        match self {
            Why::Done => 0,
            Why::Program(status) => *status,
            Why::Budget(_) => 75,
            Why::Under(..) => 2,
            Why::Usage(_)
            | Why::NoSuchFile(_)
            | Why::Syntax(..)
            | Why::Limit(..)
            | Why::BadConfig(_)
            | Why::BadPattern(_)
            | Why::PatternSize(_)
            | Why::NoFunction(_)
            | Why::NoData(_)
            | Why::Mixed(..)
            | Why::BadData(..)
            | Why::NoSource(_) => 1,
            Why::ReadFault | Why::WriteFault | Why::ShelfFault | Why::VaultFault => 74,
            Why::NoMemory => 70,
            Why::Tests(_, failed, cut) => tests_status(*failed, *cut),
            Why::ImportFailed(_) => 1,
        }
    }

    /// Whether the command was refused. A refusal ends a script, and leaves files and data as they
    /// were.
    pub fn is_refusal(&self) -> bool
        ensures { result ≡ is_refusal (plain_why self.now) }
    {
        match self {
            Why::Done | Why::Program(_) => false,
            Why::Budget(_) => false,
            Why::Under(..) => false,
            Why::Usage(_)
            | Why::NoSuchFile(_)
            | Why::Syntax(..)
            | Why::Limit(..)
            | Why::BadConfig(_)
            | Why::BadPattern(_)
            | Why::PatternSize(_)
            | Why::NoFunction(_)
            | Why::NoData(_)
            | Why::Mixed(..)
            | Why::BadData(..)
            | Why::NoSource(_)
            | Why::ReadFault
            | Why::WriteFault
            | Why::ShelfFault
            | Why::VaultFault
            | Why::NoMemory => true,
            Why::Tests(..) => false,
            Why::ImportFailed(_) => true,
        }
    }
}

fn tests_status(failed: u64, cut: u64) -> u8
    ensures { result ≡ tests_status failed cut }
{
    if failed == 0 && cut == 0 { 0 } else { 1 }
}
