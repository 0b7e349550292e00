//! Copies of expressions, with the change of the one mutant that a search reaches in them, and of
//! patterns, in which nothing changes.
#![tactic(auto)]

pub mod expressions;
mod forms;
mod nodes;
mod patterns;
mod search;

pub use nodes::texts;
pub use patterns::pattern;
pub use search::Search;
