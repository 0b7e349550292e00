//! Worked rows of the outside, of recorded data, of their combination and of vaults, as tests. They
//! stand in a crate of their own so that the libraries are proved once and not a second time with
//! their tests.
#![tactic(auto)]

#[cfg(test)]
mod combining;
#[cfg(test)]
mod data;
#[cfg(test)]
mod outside;
#[cfg(test)]
mod sets;
#[cfg(test)]
mod vaults;
