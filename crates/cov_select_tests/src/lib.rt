//! Rows of two versions of a module, the lines that changed and the tests that must run again, as
//! tests. They stand in a crate of their own so that the library is proved once and not a second
//! time with its tests.
#![tactic(auto)]

#[cfg(test)]
mod names;
#[cfg(test)]
mod paths;
#[cfg(test)]
mod rows;
#[cfg(test)]
mod selecting;
#[cfg(test)]
mod statements;
