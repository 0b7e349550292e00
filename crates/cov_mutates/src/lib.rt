//! The command `mutate`: writes what the tests of a file notice of changes in its modules. It
//! follows the program of calls that the command is defined as.
#![tactic(auto)]

mod judging;
mod lines;
mod mutating;

pub use mutating::mutate;
