//! Rows of labels, of hooks and of events with the data that a recorder makes of them, as tests;
//! and one program that is run and recorded. They stand in a crate of their own so that the
//! libraries are proved once and not a second time with their tests.
#![tactic(auto)]

#[cfg(test)]
mod events;
#[cfg(test)]
mod hooks;
#[cfg(test)]
mod labels;
#[cfg(test)]
mod programs;
#[cfg(test)]
mod rows;
