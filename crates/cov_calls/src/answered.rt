//! How a command ended that wasn't refused.
ghost use Rattle.std.specs.Prelude.{◌≡◌};
ghost use Rattle.cov_step.specs.Phases.{done};
ghost use Rattle.cov_calls.specs.Views.{answered_view};

use std::alloc::Global;

/// How a command ended that wasn't refused.
#[derive(Clone, Copy, Debug)]
pub enum Ended {
    Finished,
    /// The program ended with this status.
    Program(u8),
    /// The program took this many steps and was cut.
    Budget(u64),
    /// So many statements and branches were covered, of so many in all: less than the limit.
    Under(u64, u64),
    /// So many tests passed, failed and were cut.
    Tests(u64, u64, u64),
}

/// How a command ended that wasn't refused, with what is said of it.
#[derive(Debug, Drop)]
pub struct Answered {
    pub ended: Ended,
    /// What the ending of a program writes to `err`, or the percent that was asked for.
    pub ending: String,
}

impl Answered {
    /// All work is done.
    pub fn done(alloc: Global) -> Answered
        ensures { answered_view result ≡ done }
    {
        Answered {
            ended: Ended::Finished,
            ending: String::new(alloc),
        }
    }
}
