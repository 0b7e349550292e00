//! The commands that report.
#![tactic(auto)]

mod analyses;
mod annotating;
mod commands;
mod findings;
mod paths;
mod reported;
mod sources;

pub use annotating::annotate;
pub use commands::{json, lcov, report};
