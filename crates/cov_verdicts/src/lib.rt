//! Which tests must run again after a change, and what tests notice of mutants, by what modules
//! mean. No code stands here.
#![tactic(auto)]

/// Holds nothing but the definitions of `specs/`.
pub fn verdicts() {}
