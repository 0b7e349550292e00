//! What a report tells of a source by recorded data: `analyse` makes an `Analysis`, `total` adds
//! the `Numbers` of several, and `Numbers::percent` is the percentage. `line_set` and `branch_set`
//! are sets for look-ups in an analysis.
//!
//! `reportable_files` does nothing when it runs, and stands for the law that its contract states.
#![tactic(auto)]

mod analysing;
mod analysis;
mod branches;
mod counts;
mod hits;
mod laws;
mod lines;
mod numbers;
mod sets;
mod source;
mod taken;

pub use analysing::analyse;
pub use analysis::{Analysis, total};
pub use laws::reportable_files;
pub use numbers::Numbers;
pub use sets::{branch_set, line_set};
