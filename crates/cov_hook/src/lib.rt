//! Asks a function of a program of its own for the labels of calls.
//!
//! `Hook::open` runs the body of the script, and the hook then answers each question of `Ask` by a
//! call of the script's function with the names of a module and of a function. A text that the call
//! gives is the label.
#![tactic(auto)]

mod asking;
mod error;
mod functions;
mod hook;
mod opening;

pub use error::HookError;
pub use hook::Hook;
