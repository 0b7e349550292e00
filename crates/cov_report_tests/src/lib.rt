//! Worked rows of analyses and of reports, as tests. They stand in a crate of their own so that the
//! libraries are proved once and not a second time with their tests.
#![tactic(auto)]

#[cfg(test)]
mod json;
#[cfg(test)]
mod lcov;
#[cfg(test)]
mod numbers;
#[cfg(test)]
mod sources;
#[cfg(test)]
mod text;
