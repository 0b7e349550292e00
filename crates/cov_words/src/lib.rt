//! The words of a command: `read_words` takes them to the `Command` that they are, or says how
//! many of them begin one. `one_command` stands for a law on such words. `Why` of `cov_why` says how
//! a command ended.
#![tactic(auto)]

mod command;
mod given;
mod making;
mod operands;
mod options;
mod reading;
mod values;

pub use command::{Command, WordsError, one_command, read_words};
pub use cov_why::{BadKind, LimitKind, SyntaxKind, Why};

/// Want of memory.
pub type NoMemory = std::alloc::AllocError;
