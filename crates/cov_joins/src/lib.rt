//! The commands on data that stand: `erase` removes the data file, and `combine` joins the data of
//! several runs.
#![tactic(auto)]

mod combining;
mod erasing;
mod inputs;
mod laws;
mod removing;

pub use combining::{CombineOptions, combine};
pub use erasing::erase;
pub use laws::combine_leaves;
