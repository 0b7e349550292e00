//! Worked rows of excluded lines and of patterns, as tests. They stand in a crate of their own so
//! that the library is proved once and not a second time with its tests.
#![tactic(auto)]

#[cfg(test)]
mod exclusion;
#[cfg(test)]
mod patterns;
#[cfg(test)]
mod texts;
