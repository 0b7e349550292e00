//! The grammar of expressions: a machine that takes one token at a time, what it says of all trees,
//! and the laws of the grammar. It reads nothing itself: the crates that read expressions, fields
//! and patterns stand on it.
#![tactic(auto)]

mod error;
mod laws;

pub use error::ReadError;
pub use laws::{exact_ends, one_expr, one_exprs, one_target, one_tree};
