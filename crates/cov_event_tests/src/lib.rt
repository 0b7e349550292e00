//! Rows of events and of the arcs that they tell, as tests. They stand in a crate of their own so
//! that the libraries are proved once and not a second time with their tests.
#![tactic(auto)]

#[cfg(test)]
mod arcs;
#[cfg(test)]
mod tracers;
