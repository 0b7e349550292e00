//! Texts of the language, and the one refusal of a call that only takes memory.
//!
//! A caller makes a `Text` by `Text::from_str` or `Text::from_chars`. A copy shares the characters
//! with what it was copied from, and keeps their number and their hash.
#![tactic(auto)]

mod body;
mod characters;
mod comparing;
pub mod hash;
pub mod text;

pub use text::{Text, count_of};

/// Want of memory, the one refusal of a call that only takes memory.
pub type NoMemory = std::alloc::AllocError;
