//! Rows of statement lines, of predicted, possible and branching arcs, and of sets of arcs, as
//! tests. They stand in a crate of their own so that the library is proved once and not a second
//! time with its tests.
#![tactic(auto)]

#[cfg(test)]
mod arcs;
#[cfg(test)]
mod lines;
#[cfg(test)]
mod loops;
#[cfg(test)]
mod matches;
#[cfg(test)]
mod rows;
#[cfg(test)]
mod suites;
#[cfg(test)]
mod tries;
#[cfg(test)]
mod worked;
