//! Runs a program under a recorder: `measure` gives its data, under the labels of a hook, of
//! plugins and of the names of tests.
#![tactic(auto)]

mod hooked;
mod measuring;
mod request;
mod running;

pub use hooked::measure;
pub use request::{Measured, RunRequest};
