//! Rows of executed arcs or lines become data, data become one, and data become lists and bits.
//! `Data::new` begins without a path, `accepts` tells whether a row may come in, `add` and
//! `add_path` take rows and paths; `union` adds other data (`is_arcs` tells beforehand whether it
//! can), and `with_file` the rows of one path under another; `paths`, `rows`, `lent_rows`, `path_rows`, `lines`
//! and `arcs` list what is there; `numbits_of` packs lines into bits, which `lines_of_numbits` and
//! `has_line` read. `lines_of_arcs` is a law of the lines of arc data.
#![tactic(auto)]

mod dataset;
mod file;
mod files;
mod laws;
mod limits;
mod numbits;
mod rows;
mod sets;
mod tally;

pub use dataset::{Data, DataError};
pub use laws::lines_of_arcs;
pub use limits::MOST_NUMBER;
pub use numbits::{has_line, lines_of_numbits, numbits_of};
pub use rows::{LentRow, Row};

/// Want of memory.
pub type NoMemory = std::alloc::AllocError;
