//! What runs of a command do with input, output, plugins and engine: the relations of the calls
//! that write, run and measure. No code stands here.
#![tactic(auto)]

/// Holds nothing but the definitions of `specs/`.
pub fn streams() {}
