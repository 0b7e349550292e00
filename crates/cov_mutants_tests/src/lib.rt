//! Rows on the mutants of small modules: how many there are, and what each tells.
#![tactic(auto)]

#[cfg(test)]
mod tokens;
