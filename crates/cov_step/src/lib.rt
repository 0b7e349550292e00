//! What each command does, as a program of calls: its lines, from the top, are the one order of
//! its refusals. No code stands here but laws of these programs; crates above are proved to follow
//! them.
#![tactic(auto)]

mod laws;

pub use laws::{
    blames_who_failed, careful, combine_is_careful, import_fails_early, quiet, refuses_early,
    run_calls_vault_twice, yields_to_want_of_memory,
};
