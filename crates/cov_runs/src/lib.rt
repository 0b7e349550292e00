//! The commands that run a program: `arcs` lists the jumps of its run, and `run` saves what its run
//! took. Each follows the program of calls that its command is defined as.
#![tactic(auto)]

mod crossings;
mod ending;
mod hooks;
mod listing;
mod measuring;
mod opening;
mod requests;
mod runs;
mod saving;
mod sets;

pub use crossings::arcs;
pub use opening::opened_as;
pub use requests::RunWords;
pub use runs::run;
pub use sets::possible_sets;
