//! The command `select`: runs the tests of an old version, and writes which tests of a new version
//! must run again. It follows the program of calls that the command is defined as.
#![tactic(auto)]

mod choosing;
mod lines;
mod selecting;

pub use selecting::select;
