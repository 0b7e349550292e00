//! The command `suite`: from a file to how each of its tests ended, and to what these took, saved.
//! It follows the program of calls that the command is defined as. `loaded_suite` runs the tests of
//! a loaded program, for commands that stand on them.
#![tactic(auto)]

mod lines;
mod requests;
mod suites;
mod testing;

pub use requests::SuiteWords;
pub use suites::suite;
pub use testing::{import_failed, loaded_suite};
