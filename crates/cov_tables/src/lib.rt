//! The rows of the tables of a data file become data: `Cell` is a value of a row, `RowCells` are
//! those of one row, `Tables` holds what was read of each table, and `content_of` joins, orders and
//! counts its rows.
//! `entries_in_order` is a law of that order.
#![tactic(auto)]

mod adding;
mod cells;
mod content;
mod entries;
mod hits;
mod laws;
mod names;

pub use cells::{Cell, RowCells};
pub use content::{Tables, content_of, is_schema_7};
pub use laws::entries_in_order;
