//! Worked rows of loading, as tests. They stand in a crate of their own so that the library is
//! proved once and not a second time with its tests.
#![tactic(auto)]

#[cfg(test)]
mod alone;
#[cfg(test)]
mod limits;
#[cfg(test)]
mod modules;
#[cfg(test)]
mod programs;
#[cfg(test)]
mod refused;
#[cfg(test)]
mod rows;
