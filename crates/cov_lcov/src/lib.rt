//! Texts of analyses: `annotate` turns one and its source into the source with a mark on each line,
//! and `lcov_report` turns several into a report in LCOV's format.
#![tactic(auto)]

mod annotating;
mod branches;
mod reporting;

pub use annotating::annotate;
pub use reporting::lcov_report;
