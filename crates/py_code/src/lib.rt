//! The code of programs: instructions in units, and what a machine does that runs them.
#![tactic(auto)]

mod code;
mod instr;
mod laws;
mod unit;

pub use code::{Code, MOST_UNITS, Program, Programs};
pub use instr::{Bounds, Instr, Question};
pub use laws::{never_misses, slots_are_names};
pub use unit::{Constant, Handler, Unit};
