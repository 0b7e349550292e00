//! Reads expressions and the targets of `for` from lists of tokens: `read_expr` from a place to the
//! next, and `parse_expr` a whole list.
#![tactic(auto)]

mod expr_brackets;
mod expr_chains;
mod expr_classes;
mod expr_fields;
mod expr_frames;
mod expr_limits;
mod expr_nodes;
mod expr_stack;
mod expr_steps;
mod expr_strings;
mod expr_turns;
mod exprs;

pub use exprs::{ExprPart, ExprRead, parse_expr, read_expr};
