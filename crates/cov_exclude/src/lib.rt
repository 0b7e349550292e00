//! Which lines of a module are excluded, and which needn't take all of their branches: `excluded`
//! and `no_branch`, by the `Patterns` that match a line. A `Maker` builds the patterns.
#![tactic(auto)]

mod exclusion;
mod lines;
mod maker;
mod matched;
mod patterns;
mod walk;

pub use exclusion::{excluded, no_branch};
pub use maker::{MakeError, Maker, MemMaker, RegexMaker};
pub use patterns::{PatternError, Patterns};
pub use py_text::NoMemory;
