//! Runs one command: from its words to what it prints, what it saves and how it ends. Its one call
//! that does anything is `coverage`.
#![tactic(auto)]

mod answer;
mod commands;
mod inside;
mod laws;
mod lines;
mod saying;
mod script_files;
mod scripts;
mod step;

pub use answer::{End, Told};
pub use laws::scripts_fold;
pub use step::coverage;
