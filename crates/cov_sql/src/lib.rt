//! Data files of coverage.py's schema 7: `read_data` and `write_data` turn them into data and back.
//! `FolderVault` keeps them in a folder, and `SqlVault` in memory. `Statements` has a method for
//! each statement on their tables, and `Counted` runs them and counts what the database refuses.
#![tactic(auto)]

mod asking;
mod bits;
mod counted;
mod errors;
mod folder;
mod inserting;
mod laws;
mod memory;
mod preparing;
mod reading;
mod saved;
mod statements;
mod tables;
mod values;
mod writing;

pub use counted::Counted;
pub use cov_tables::{Cell, RowCells};
pub use errors::SqlError;
pub use folder::FolderVault;
pub use laws::{saved_are_read, saved_is_ready, saved_is_schema_7, saves_are_read};
pub use memory::SqlVault;
pub use reading::read_data;
pub use statements::{StatementError, Statements};
pub use writing::write_data;
