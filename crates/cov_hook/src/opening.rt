// The body of a script.
ghost use Rattle.std.specs.Prelude.{◌≡◌, ◌<◌, ◌≤◌, length, IfOk, OnOk, [], ◌∷◌};
ghost use Rattle.py_code.specs.Loaded.{modules_of, most_numbered};
ghost use Rattle.py_code.specs.Programs.{run, first_world};
ghost use Rattle.py_code.specs.Slots.{by_slots};
ghost use Rattle.py_machine.specs.Outcomes.{plain_outcome};
ghost use Rattle.py_world.specs.Stores.{world_of};
ghost use Rattle.cov_hook.specs.States.{opening, world_after_body, most_steps};
ghost use Rattle.cov_hook.specs.View.{path_of, world_in};

use cov_event::Silent;
use cov_outside::{NullSink, SureSource};
use py_builtins::RunFault;
use py_code::Programs;
use py_machine::{Outcome, Store, run};
use py_value::NoMemory;
use std::alloc::{AllocError, Global};

/// The most steps of a script's body, and of a call.
pub const MOST_STEPS: u64 = 10_000;

/// A new store of the programs, with the script's path as their one word.
fn new_store(alloc: Global, programs: &Programs) -> Result<Store, NoMemory>
    requires { 0 < length (modules_of programs.now) }
    ensures { IfOk result (λ store.
        world_of store ≡ first_world (modules_of programs.now) (path_of programs.now ∷ [])) }
{
    let path = String::from_str(alloc, programs.modules[0].path.as_str())?;
    let words = vec![in alloc; path]?;
    Store::new(alloc, programs, &words)
}

/// Runs the body of the script, with empty input and with its output thrown away.
fn run_body(alloc: Global, programs: &Programs, store: &mut Store) -> Result<Outcome, NoMemory>
    requires some { 0 < length (modules_of programs.now) }
    requires few { length (modules_of programs.now) ≤ most_numbered }
    ensures outcome { IfOk result (λ outcome. plain_outcome outcome
        ≡ (run (by_slots (modules_of programs.now)) (modules_of programs.now)
        (world_of store.old) [] most_steps).outcome) }
    ensures world { OnOk result (world_of store.new
        ≡ (run (by_slots (modules_of programs.now)) (modules_of programs.now)
        (world_of store.old) [] most_steps).world) }
{
    let mut input = SureSource::new(Vec::new(alloc));
    match run(
        alloc,
        programs,
        store,
        MOST_STEPS,
        &mut Silent,
        &mut input,
        &mut NullSink,
    ) {
        Ok(ran) => Ok(ran.outcome),
        Err(RunFault::ReadFault) => unreachable!(),
        Err(RunFault::WriteFault) => unreachable!(),
        Err(RunFault::NoMemory) => Err(AllocError),
    }
}

/// The store after a body, if it ended by itself.
fn store_after_body(outcome: &Outcome, store: Box<Store>) -> Option<Box<Store>>
    ensures { world_in result
        ≡ world_after_body (plain_outcome outcome.now) (world_of store.value) }
{
    match outcome {
        Outcome::Finished => Some(store),
        Outcome::Exited(_, _) => None,
        Outcome::Raised(_, _) => None,
        Outcome::Cut => None,
    }
}

/// A store on which the body of the script was run. There is none where that raised, exited or was
/// cut.
pub fn opened_store(alloc: Global, programs: &Programs) -> Result<Option<Box<Store>>, NoMemory>
    requires some { 0 < length (modules_of programs.now) }
    requires few { length (modules_of programs.now) ≤ most_numbered }
    ensures { IfOk result (λ store. world_in store ≡ world_after_body
        (opening (modules_of programs.now) (path_of programs.now)).outcome
        (opening (modules_of programs.now) (path_of programs.now)).world) }
{
    let mut store = Box::new(alloc, new_store(alloc, programs)?)?;
    let outcome = run_body(alloc, programs, &mut store)?;
    Ok(store_after_body(&outcome, store))
}
