//! Reads the tree of a module from the tokens of its source text.
#![tactic(auto)]

mod error;
mod laws;
mod parser;
mod progress;

pub use error::{DepthKind, SyntaxError};
pub use laws::one_tree;
pub use parser::parse;
