//! How a command ended.
ghost use Rattle.std.specs.Prelude.{◌≡◌, Ok};
ghost use Rattle.cov_calls.specs.Views.{ended_view};
ghost use Rattle.cov_why.specs.Answers.{plain_why};

use cov_calls::Ended;
use cov_why::Why;

/// How a call of `coverage` ended.
#[derive(Drop)]
pub struct End {
    /// The exit status, from 0 to 255.
    pub status: u8,
    pub why: Why,
    pub told: Told,
}

/// What became of the text for `err`.
#[derive(Clone, Copy, Debug, PartialEq, Eq)]
pub enum Told {
    /// All of it was written.
    Whole,
    /// Writing failed after a prefix of it.
    Failed,
    /// No memory was left after a prefix of it.
    NoMemory,
}

/// The answer to how a command ended that wasn't refused.
pub(crate) fn why_of(ended: Ended) -> Why
    ensures { plain_why result ≡ Ok (ended_view ended) }
{
    match ended {
        Ended::Finished => Why::Done,
        Ended::Program(status) => Why::Program(status),
        Ended::Budget(steps) => Why::Budget(steps),
        Ended::Under(covered, all) => Why::Under(covered, all),
        Ended::Tests(passed, failed, cut) => Why::Tests(passed, failed, cut),
    }
}
