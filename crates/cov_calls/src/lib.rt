//! The calls that commands make: each function is one call of an object, or a few that commands
//! share, and follows the program that the definitions of the commands have for it.
#![tactic(auto)]

mod answered;
mod files;
mod judging;
mod lasts;
mod limits;
mod names;
mod pattern_lists;
mod setting_files;
mod vaults;

pub use answered::{Answered, Ended};
pub use files::file;
pub use judging::judged;
pub use lasts::{put_last, write, write_last};
pub use limits::USUAL_STEPS;
pub use names::{data_name, own_name};
pub use pattern_lists::{PatternLists, patterns, patterns_by};
pub use setting_files::settings;
pub use vaults::{
    Before, bad_data, needed, no_data, refused, remove, remove_last, save, save_last, target,
};
