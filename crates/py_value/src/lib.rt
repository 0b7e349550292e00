//! Turns an operator and its operands, with the heap of their lists and dicts, into the value
//! and the heap that Python's table of operators gives, or into the exception that it raises.
//!
//! A caller makes a `Heap` by `Heap::new` and values by `Text::from_str`, `Heap::make_list` and
//! `Heap::make_dict`. The operators are `binary`, `in_place`, `update`, `compare`, `truth`,
//! `index`, `slice` and `store`. `Value::copy` and `Heap::copy` give equal ones, and `Heap`'s calls
//! read and change its lists.
#![tactic(auto)]

mod arithmetic;
mod augmented;
pub mod builtin;
pub mod cause;
mod comparisons;
mod equality;
pub mod exception;
mod hash;
pub mod heap;
mod indexing;
pub mod key;
mod key_index;
mod limits;
pub mod number;
mod ordering;
mod pairs;
mod places;
pub mod raised;
mod sequences;
pub mod shared;
mod slicing;
mod storing;
pub mod value;

pub use arithmetic::binary;
pub use augmented::{in_place, update};
pub use builtin::{Builtin, Method};
pub use cause::Cause;
pub use comparisons::{compare, truth};
pub use exception::ExcKind;
pub use heap::Heap;
pub use indexing::index;
pub use limits::{MOST_ITEMS, MOST_LEVELS};
pub use number::calculate;
pub use places::place_among;
pub use py_operator::{BinOp, CmpOp};
pub use py_text::{NoMemory, Text};
pub use shared::{Argument, Items};
pub use slicing::slice;
pub use storing::store;
pub use value::{Addr, FuncId, ModId, Raised, Value};
