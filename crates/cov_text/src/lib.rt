//! Turns the analyses of several files into the text report that `report` prints: `text_report`.
#![tactic(auto)]

mod columns;
mod missing;
mod report;

pub use report::text_report;

/// Want of memory.
pub type NoMemory = std::alloc::AllocError;
