//! Gives what Python's built-in functions and methods give, and the texts of values.
//!
//! `call_builtin` calls a built-in function over a `Source` and a `Sink`: it answers the value and
//! changes the heap, or answers the exception and leaves the heap as it was, and after a `RunFault`
//! the heap is as it was too. `call_method` does so for the methods of lists, dicts and texts;
//! `has_method` says whether a value has a method, which a caller asks before it evaluates the
//! arguments. `exception_of` calls a kind of exceptions. `str_of` gives the text that `str` gives,
//! and `repr_of` that of `repr`.
//!
//! `specs/` defines the whole table of calls, and the world of a program: the globals of its
//! modules, which of these were begun, the heap, and the list of its words.
#![tactic(auto)]

mod arguments;
mod builtins;
mod char_lists;
mod dict_methods;
mod displays;
mod exceptions;
mod fault;
mod input;
mod lengths;
mod lines;
mod list_methods;
mod literals;
mod marks;
mod methods;
mod names;
mod pairs;
mod print;
mod quotes;
mod raising;
mod ranges;
mod text_methods;
mod texts;
mod writer;

pub use builtins::call_builtin;
pub use exceptions::exception_of;
pub use fault::{RunFault, write};
pub use methods::{call_method, has_method};
pub use names::{BUILTINS, KINDS, builtin_name, kind_name};
pub use texts::{repr_of, str_of};
