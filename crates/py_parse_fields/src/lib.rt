//! Whether the fields of an f-string are expressions, whatever their height: `is_spelled`, which
//! builds no trees. `operators` and `token_classes` are also for the reader that builds them.
#![tactic(auto)]

mod fields;
mod frames;
pub mod operators;
mod reader;
mod replies;
pub mod token_classes;

pub use fields::is_spelled;
