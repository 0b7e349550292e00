//! Tells whether a module is well formed, and the names of its functions: `check`.
#![tactic(auto)]

mod body;
mod checker;
mod error;
mod expressions;
mod faults;
mod lists;
mod names;
mod occurrence;
mod occurrences;
mod patterns;
mod place;
mod report;
mod scopes;

pub use checker::check;
pub use error::ScopeError;
pub use names::NameSet;
pub use occurrence::Occurrence;
pub use scopes::{FunctionNames, Scopes};
