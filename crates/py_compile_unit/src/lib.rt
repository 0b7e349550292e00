//! Turns cells into units: numbers in place of names, constants and lines, and a handler table.
#![tactic(auto)]

mod constants;
mod functions;
mod handlers;
mod keys;
mod lines;
mod names;
mod numbering;
mod unit;
mod units;

pub use functions::{Def, functions_of, lines_of};
pub use unit::{Heading, unit_of};
pub use units::{body_unit, function_unit};
