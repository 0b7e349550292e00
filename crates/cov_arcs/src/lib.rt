//! Turns the events of a run into its arcs, which are those of the run's meaning.
//!
//! `Arcs` is a tracer that keeps them. `told_arcs` and the functions beside it do nothing when they
//! run, and stand for the laws that their contracts state.
#![tactic(auto)]

mod arcs;
mod frames;
mod laws;
mod sets;

pub use arcs::Arcs;
pub use frames::Frame;
pub use laws::{
    kept_arcs, told_arcs, told_arcs_of_call, told_arcs_of_first_events, told_arcs_of_modules,
};
