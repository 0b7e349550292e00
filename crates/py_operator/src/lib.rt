//! The operators of the language, by their names: what a tree, an instruction and a value's table
//! have in common.
#![tactic(auto)]

mod operator;

pub use operator::{BinOp, CmpOp};
