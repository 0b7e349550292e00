//! The answers of commands: `Why` says how a command ended, or why it was refused. It has the exit
//! status of each, and its text on standard error.
#![tactic(auto)]

mod messages;
mod statuses;
mod why;

pub use why::{BadKind, LimitKind, SyntaxKind, Why};
