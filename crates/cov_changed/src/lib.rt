//! Tells what changed between two versions of a module: `changed`, the lines whose marks changed,
//! and `fits`, whether a module that marked nothing is the same. `all_marks` gives the lines of a
//! module of which all change.
#![tactic(auto)]

mod alike;
mod bodies;
mod changes;
mod comparing;
mod functions;
mod locals;
mod marks;
mod silence;
mod texts;
mod versions;

pub use bodies::fits;
pub use texts::hold;
pub use versions::{all_marks, changed};
