//! Writes the body of a module or a function down as pieces in a row, which can be compared one by
//! one: `pieces`.
#![tactic(auto)]

mod expressions;
mod heads;
mod outline;
mod patterns;
mod piece;
mod statements;

pub use piece::{Function, Piece};
pub use statements::pieces;
