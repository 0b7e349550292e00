//! What the product is for, over commands and reports: laws of no work, each stated by the clause
//! of a function.
#![tactic(auto)]

mod laws;

pub use laws::{data_of_origins, headline, missing_of_origins, same_in_any_order};
