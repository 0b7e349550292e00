//! Programs that are measured, with their data as lines, as tests. They stand in a crate of their own
//! so that the libraries are proved once and not a second time with their tests.
#![tactic(auto)]

#[cfg(test)]
mod engines;
#[cfg(test)]
mod harness;
#[cfg(test)]
mod programs;
