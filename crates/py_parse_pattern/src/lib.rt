//! Reads the patterns of `case` from lists of tokens: `read_patterns` from a place to the next, and
//! the law of patterns.
#![tactic(auto)]

mod laws;
mod limits;
mod nodes;
mod patterns;
mod reader;
mod token_classes;

pub use laws::one_pattern;
pub use patterns::{PatternRead, read_patterns};
