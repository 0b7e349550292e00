//! Turns the events of a run into rows with counts, under the labels of the calls.
//!
//! `Recorder::new` takes the names of a program's units, what has a counter in each module, and who
//! gives labels. The recorder is a tracer: it is told the events of a run one by one. `finish` gives
//! the data, and the plugins back. `Recorder::of_plan` takes the same as a `RunPlan`, which
//! `finish_for_next` hands on, so that many short runs need no copy of names and sets.
//! `recorded_rows` does nothing when it runs, and stands for the law that its contract states.
#![tactic(auto)]

mod context;
mod frames;
mod gather;
mod hints;
mod index;
mod laws;
mod names;
mod plan;
mod recorder;
mod records;
mod rows;
mod seats;
mod sets;
mod steps;
mod units;

pub use laws::recorded_rows;
pub use names::UnitName;
pub use plan::RunPlan;
pub use py_text::NoMemory;
pub use recorder::{NoRecorder, Recorder};
