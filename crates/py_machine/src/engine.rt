// Whoever runs programs.
ghost use Rattle.std.specs.Prelude.{◌<◌, ◌≤◌, Bool, List, length, IfOk, IfErr, IsErrOf};
ghost use Rattle.cov_event.specs.declared.event.Event.{Event};
ghost use Rattle.cov_event.specs.Moves.{Takes, Calls};
ghost use Rattle.cov_outside.specs.Counts.{Rose};
ghost use Rattle.py_builtins.specs.Inputs.{Wrote};
ghost use Rattle.py_code.specs.Loaded.{modules_of, most_numbered};
ghost use Rattle.py_machine.specs.Fitting.{RunFits};
ghost use Rattle.py_machine.specs.Runs.{IsRun, StopsRun};
ghost use Rattle.py_machine.specs.Told.{OnInput, TakesUntil, OnInputUntil};
ghost use Rattle.py_world.specs.Stores.{world_of};

use crate::outcome::Ran;
use crate::runs::run;
use cov_event::Tracer;
use cov_outside::{Sink, Source};
use py_builtins::RunFault;
use py_code::Programs;
use py_world::Store;
use std::alloc::Global;

/// Runs programs. An engine that is true runs them as their code says.
pub trait Engine {
    // Whether it is true.
    ghost faithful: { Type 0 };

    // In a run it told these events, of which those with `true` were taken, and the others refused.
    ghost told: { Self → List (Event × Bool) → Self → Type 0 };

    fn run<T: Tracer, I: Source, O: Sink>(
        &mut self,
        alloc: Global,
        programs: &Programs,
        store: &mut Store,
        budget: u64,
        tracer: &mut T,
        input: &mut I,
        out: &mut O,
    ) -> Result<Ran, RunFault>
        requires some { 0 < length (modules_of programs.now) }
        requires few { length (modules_of programs.now) ≤ most_numbered }
        ensures ok { faithful
            → IfOk result (λ ran. OnInput I.tells (I.left input.old) (I.left input.new)
            (IsRun (λ es. Takes T.moves tracer.old es tracer.new)
            (Wrote O.tells (O.contents out.old) (O.contents out.new)) (modules_of programs.now)
            (world_of store.old) budget ran (world_of store.new))) }
        ensures fits { faithful
            → IfOk result (λ ran. RunFits (modules_of programs.now) (world_of store.old)
            (world_of store.new)) }
        ensures given_up { faithful
            → IfErr result (λ fault. OnInputUntil I.tells (I.left input.old)
            (I.left input.new)
            (StopsRun (λ es. TakesUntil T.moves T.refused fault tracer.old es tracer.new) O.tells
            (O.contents out.old) (O.contents out.new) (modules_of programs.now)
            (world_of store.old) budget)) }
        // Whether it is true or not:
        ensures calls { (calls : List (Event × Bool)) × told self.old calls self.new
            × Calls T.moves T.refused tracer.old calls tracer.new }
        ensures reads { I.faults input.old ≤ I.faults input.new }
        ensures writes { O.faults out.old ≤ O.faults out.new }
        ensures read_fault { IsErrOf result RunFault.ReadFault
            → Rose (I.faults input.old) (I.faults input.new) }
        ensures write_fault { IsErrOf result RunFault.WriteFault
            → Rose (O.faults out.old) (O.faults out.new) };
}

/// The machine.
#[derive(Drop)]
pub struct Machine;

impl Engine for Machine {
    ghost faithful = { Unit {0} };

    // What a true engine tells is what the code tells.
    ghost told = { λ _ _ _. Unit {0} };

    fn run<T: Tracer, I: Source, O: Sink>(
        &mut self,
        alloc: Global,
        programs: &Programs,
        store: &mut Store,
        budget: u64,
        tracer: &mut T,
        input: &mut I,
        out: &mut O,
    ) -> Result<Ran, RunFault> {
        run(alloc, programs, store, budget, tracer, input, out)
    }
}
