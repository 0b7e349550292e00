//! What a reader of a module can tell of its runs: `statements`, the lines that can be executed,
//! `predict` and `possible`, the arcs that its runs can take, and `ArcSet`, a set of arcs whose
//! places count from 0 in the order of from and to.
#![tactic(auto)]

mod arcs;
mod bodies;
mod branches;
mod constants;
mod first_marks;
mod handlers;
mod jumps;
mod lines;
mod loops;
mod marks;
mod prediction;
mod simple;
mod statement_lines;
mod walk;
mod ways;

pub use arcs::ArcSet;
pub use prediction::{possible, predict};
pub use py_text::NoMemory;
pub use statement_lines::statements;
