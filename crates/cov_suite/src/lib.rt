//! Runs the tests of a program, each from the state that its import leaves: `suite` gives the
//! result of each, the lines that it reached, and the data of all. `all_pass` records nothing, and
//! tells whether some of them pass. `tests_of_script` gives their names without a run, and
//! `units_of` the units that `suite` asks for.
#![tactic(auto)]

mod data_lines;
mod imports;
mod joining;
mod merging;
mod names;
mod passing;
mod recorders;
mod results;
mod runs;
mod suites;
mod testing;

pub use cov_measure_laws::units_of;
pub use names::tests_of_script;
pub use passing::all_pass;
pub use results::{SuiteError, SuiteRun, TestEnd, TestResult};
pub use suites::suite;
