//! What a program's modules hold as they run, and what the machine finds in it: globals and
//! predefined names, names after dots, modules, units and handlers by their numbers, items of
//! values, and values of parameters.
#![tactic(auto)]

mod attributes;
mod faults;
mod globals;
mod items;
mod known_names;
mod links;
mod lookup;
mod modules;
mod name;
mod numbering;
mod parameters;
mod store;
mod table;
mod texts;

pub use attributes::{Callee, attribute, callee_of, taken};
pub use faults::{local_unset, name_unknown, no_module};
pub use items::{item_of, sequence_of, unpacked, walk_length};
pub use lookup::{handler_among, handler_in, unit_in};
pub use modules::{imported, imported_number};
pub use parameters::arguments;
pub use store::Store;
pub use texts::is_sys;
