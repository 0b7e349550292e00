//! Tells what changed between two lists of modules: `changed_by_path`. `select` gives the tests that
//! must run again. Two versions of one module are compared by `cov_changed`.
#![tactic(auto)]

mod by_path;
mod laws;
mod lines;
mod modules;
mod selection;

pub use by_path::changed_by_path;
pub use cov_changed::{changed, fits};
pub use laws::{chosen_in_suite, unselected_in_suite};
pub use selection::select;
