//! The command `make`: runs a source that is made up, and writes what a report counts of it as one
//! line. It follows the program of calls that the command is defined as.
#![tactic(auto)]

mod lines;
mod making;
mod sources;
mod trials;

pub use making::make;
