//! That commands aren't refused where what they need is there: laws over their programs. No code
//! stands here.
#![tactic(auto)]

mod laws;

pub use laws::{complete, complete_script, defaults_are_set};
