//! Rows of sources that are made up, as tests. They stand in a crate of their own so that the
//! library is proved once and not a second time with its tests.
#![tactic(auto)]

#[cfg(test)]
mod made;
