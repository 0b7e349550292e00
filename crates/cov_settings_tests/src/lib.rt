//! Worked rows of settings, omit patterns and words, as tests. They stand in a crate of their own
//! so that the library is proved once and not a second time with its tests.
#![tactic(auto)]

#[cfg(test)]
mod omits;
#[cfg(test)]
mod settings;
#[cfg(test)]
mod words;
