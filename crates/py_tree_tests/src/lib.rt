//! Worked rows of sources, as tests: tokens, trees, limits and scopes. They stand in a crate of
//! their own so that the libraries are proved once and not a second time with their tests.
#![tactic(auto)]

#[cfg(test)]
mod expressions;
#[cfg(test)]
mod fields;
#[cfg(test)]
mod heights;
#[cfg(test)]
mod patterns;
#[cfg(test)]
mod scopes;
#[cfg(test)]
mod statements;
#[cfg(test)]
mod tokens;
#[cfg(test)]
mod writer;
