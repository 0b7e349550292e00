//! Turns the statements of a body into cells: `body_cells`.
#![tactic(auto)]

mod body;
mod branches;
mod compound;
mod defs;
mod heads;
mod loops;
mod parts;
mod places;
mod simple;
mod statements;
mod suite_sizes;
mod ways;

pub use body::body_cells;
pub use defs::Defs;
