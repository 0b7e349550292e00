//! What a run tells of itself while it runs: events to a `Tracer`, and questions for a label to an
//! `Ask` and to each `ContextPlugin`. Each trait relates the state before a call, what was told or
//! asked and answered, and the state after it, so that a contract can say what became of a tracer
//! or a plugin.
//!
//! A machine calls `Tracer::event` in the middle of a frame. Whoever records contexts calls
//! `Ask::ask` and `ContextPlugin::context` at the call of a function. `Silent` and `Nobody` do
//! nothing.
#![tactic(auto)]

mod ask;
mod event;
mod plugin;
mod tracer;

pub use ask::{Ask, Nobody};
pub use event::{CodeId, Event};
pub use plugin::{ContextPlugin, Verdict};
pub use tracer::{Silent, Tracer};
