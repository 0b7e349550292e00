//! Which refusals a command answers: each exactly where its cause holds, in one order. No code
//! stands here.
#![tactic(auto)]

mod laws;

pub use laws::{caused, caused_lines, caused_scripts, one_cause, only_causes, worked_causes};
