//! The data of several runs become one, in which each path stands under its alias.
//! `AliasRules::read` takes the rules of the aliases, `AliasRules::alias` gives the alias of a
//! path, and `combine` unites the data by such rules. `combined_holds_inputs` is a law of what
//! comes of it.
#![tactic(auto)]

mod aliases;
mod combining;
mod components;
mod matching;
mod rule;

pub use aliases::AliasRules;
pub use combining::{CombineError, combine, combined_holds_inputs};

/// Want of memory.
pub use cov_data::NoMemory;
