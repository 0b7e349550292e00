//! Compiles a module: `compile` turns its tree into code.
#![tactic(auto)]

mod compiling;
mod units;

pub use compiling::compile;
