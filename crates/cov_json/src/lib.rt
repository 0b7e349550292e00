//! Turns the analyses of several files into a report in JSON: `json_report`.
#![tactic(auto)]

mod file;
mod lists;
mod report;
mod summary;

pub use report::json_report;
