// Who is told the events of a run.
ghost use Rattle.std.specs.Prelude.{◌≡◌, IsOk, OnOk, OnErr};
ghost use Rattle.cov_event.specs.declared.event.Event.{Event};

use crate::event::Event;
use py_value::NoMemory;
use std::alloc::Global;

/// Takes the events of a run, one by one.
pub trait Tracer {
    // An event leads from one state to another.
    ghost moves: { Self → Event → Self → Type 0 };

    // What an event leaves that is refused for memory.
    ghost refused: { Self → Event → Self → Type 0 };

    // What the tracer records.
    ghost Record: { Type 0 };

    ghost recorded: { Self → Record };

    // A refused event leaves what is recorded as it was.
    ghost kept: { (old : Self) (event : Event) (new : Self) → refused old event new
        → recorded new ≡ recorded old };

    /// Takes an event. Where there is no memory for it, what the tracer records stays as it was.
    fn event(&mut self, alloc: Global, ev: &Event) -> Result<(), NoMemory>
        ensures moved { OnOk result (moves self.old ev.now self.new) }
        ensures refused { OnErr result (refused self.old ev.now self.new) };
}

/// A tracer that takes every event and keeps nothing.
#[derive(Drop)]
pub struct Silent;

impl Tracer for Silent {
    ghost moves = { λ old _ new. new ≡ old };

    ghost refused = { λ _ _ _. ⊥ };

    ghost Record = { Unit {0} };

    ghost recorded = { λ _. tt };

    ghost kept = { λ _ _ _ no. absurd no };

    fn event(&mut self, _alloc: Global, _ev: &Event) -> Result<(), NoMemory>
        ensures ok { IsOk result }
        ensures moved { self.new ≡ self.old }
    {
        Ok(())
    }
}
