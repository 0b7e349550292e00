//! The machine of frames: runs programs of code, and calls their functions.
//!
//! `run` runs the script of programs on a store, `call` calls what a global of a module holds. An
//! `Engine` is whoever runs programs, and `Machine` is one that does it as `run` does.
#![tactic(auto)]

mod calls;
mod ending;
mod engine;
mod exceptions;
mod fitting;
mod inputs;
mod outcome;
mod perform;
mod reach;
mod runs;

pub use calls::call;
pub use ending::Ending;
pub use engine::{Engine, Machine};
pub use fitting::new_store_fits;
pub use outcome::{Answer, Called, Outcome, Ran};
pub use py_world::Store;
pub use runs::run;
