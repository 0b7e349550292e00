//! The outside of a program, as traits: where its input comes from (`Source`), where its output
//! goes (`Sink`), and where its files lie (`Shelf`). Each object counts its faults, and an object
//! in memory also tells the bytes that it holds, so that a contract can say what a program reads
//! and writes.
//!
//! A caller takes `&mut impl Source`, `&mut impl Sink` or `&mut impl Shelf`. Tests hand in the
//! objects in memory, of which the `Mem` ones fail at chosen calls and the `Sure` ones never.
//! `Failing` keeps which calls fail.
#![tactic(auto)]

mod failing;
mod folder;
mod memory_shelf;
mod memory_sink;
mod memory_source;
mod shelf;
mod sink;
mod source;
mod standard;

pub use failing::Failing;
pub use folder::FolderShelf;
pub use memory_shelf::{MemShelf, SureShelf};
pub use memory_sink::{MemSink, NullSink, SureSink};
pub use memory_source::{MemSource, SureSource};
pub use shelf::{Shelf, ShelfError};
pub use sink::{Sink, SinkError};
pub use source::{Failed, Source};
pub use standard::{StdSink, StdSource, Stream};
