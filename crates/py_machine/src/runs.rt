// Runs of programs.
ghost use Rattle.std.specs.Prelude.{◌≡◌, ◌<◌, ◌≤◌, length, IfOk, IfErr, IsErrOf};
ghost use Rattle.cov_event.specs.Moves.{Takes};
ghost use Rattle.cov_outside.specs.Counts.{Rose};
ghost use Rattle.py_value.specs.View.{plains};
ghost use Rattle.py_builtins.specs.Inputs.{Wrote};
ghost use Rattle.py_code.specs.Loaded.{modules_of, most_numbered};
ghost use Rattle.py_code.specs.Machine.{machine, new_frame, outermost, follows};
ghost use Rattle.py_code.specs.Run.{go};
ghost use Rattle.py_code.specs.Slots.{by_slots};
ghost use Rattle.py_code.specs.Valid.{AreCodes};
ghost use Rattle.py_machine.specs.Fitting.{RunFits};
ghost use Rattle.py_machine.specs.Runs.{IsRun, StopsRun};
ghost use Rattle.py_machine.specs.Told.{OnInput, Ran as Ends, AtStart, TakesUntil, CallsSome, OnInputUntil, RunGivenUp};
ghost use Rattle.py_instructions.specs.Reaching.{HasUnit};
ghost use Rattle.py_world.specs.Stores.{world_of};
ghost use Rattle.py_instructions.specs.View.{plain_frame, effects_of, seen};

use crate::ending::Ending;
use crate::outcome::Ran;
use crate::perform::step;
use cov_event::{CodeId, Event, Tracer};
use cov_outside::{Sink, Source};
use py_builtins::RunFault;
use py_code::Programs;
use py_instructions::{Stack, State, new_frame};
use py_value::{NoMemory, Value};
use py_world::Store;
use std::alloc::Global;

/// Runs the script on a store, within a budget of steps.
pub fn run<T: Tracer, I: Source, O: Sink>(
    alloc: Global,
    programs: &Programs,
    store: &mut Store,
    budget: u64,
    tracer: &mut T,
    input: &mut I,
    out: &mut O,
) -> Result<Ran, RunFault>
    requires some { 0 < length (modules_of programs.now) }
    requires few { length (modules_of programs.now) ≤ most_numbered }
    ensures ok { IfOk result (λ ran. OnInput I.tells (I.left input.old) (I.left input.new)
        (IsRun (λ es. Takes T.moves tracer.old es tracer.new)
        (Wrote O.tells (O.contents out.old) (O.contents out.new)) (modules_of programs.now)
        (world_of store.old) budget ran (world_of store.new))) }
    ensures fits { IfOk result (λ ran. RunFits (modules_of programs.now) (world_of store.old)
        (world_of store.new)) }
    ensures given_up { IfErr result (λ fault. OnInputUntil I.tells (I.left input.old)
        (I.left input.new)
        (StopsRun (λ es. TakesUntil T.moves T.refused fault tracer.old es tracer.new) O.tells
        (O.contents out.old) (O.contents out.new) (modules_of programs.now)
        (world_of store.old) budget)) }
    ensures calls { CallsSome T.moves T.refused tracer.old tracer.new }
    ensures reads { I.faults input.old ≤ I.faults input.new }
    ensures writes { O.faults out.old ≤ O.faults out.new }
    ensures read_fault { IsErrOf result RunFault.ReadFault
        → Rose (I.faults input.old) (I.faults input.new) }
    ensures write_fault { IsErrOf result RunFault.WriteFault
        → Rose (O.faults out.old) (O.faults out.new) }
{
    programs.are_valid();
    let script = CodeId { module: 0, unit: 0 };
    let ended = begin(
        alloc,
        script,
        Vec::new(alloc),
        budget,
        store,
        programs,
        tracer,
        input,
        out,
    )?;
    let steps = budget.saturating_sub(ended.steps);
    let outcome = ended.ending.into_outcome(alloc, &store.heap)?;
    Ok(Ran { outcome, steps })
}

/// How a run ended, and the steps that were left.
#[derive(Drop)]
pub struct Ended {
    pub ending: Ending,
    pub steps: u64,
}

/// Runs a frame that nothing waits for.
pub fn begin<T: Tracer, I: Source, O: Sink>(
    alloc: Global,
    code: CodeId,
    values: Vec<Value>,
    budget: u64,
    store: &mut Store,
    programs: &Programs,
    tracer: &mut T,
    input: &mut I,
    out: &mut O,
) -> Result<Ended, RunFault>
    requires few { length (modules_of programs.now) ≤ most_numbered }
    requires some { 0 < length (modules_of programs.now) }
    requires valid { AreCodes (modules_of programs.now) }
    requires unit { HasUnit (modules_of programs.now) code }
    ensures ok { IfOk result (λ e. OnInput I.tells (I.left input.old) (I.left input.new)
        (Ends (λ es. Takes T.moves tracer.old es tracer.new)
        (Wrote O.tells (O.contents out.old) (O.contents out.new))
        (λ o. follows (by_slots (modules_of programs.now)) (modules_of programs.now)
        (outermost (by_slots (modules_of programs.now)) (modules_of programs.now) code
        (plains values.items) budget (effects_of store.old o)))
        e.ending e.steps store.new)) }
    ensures given_up { IfErr result (λ fault. OnInputUntil I.tells (I.left input.old)
        (I.left input.new)
        (RunGivenUp (λ es. TakesUntil T.moves T.refused fault tracer.old es tracer.new) O.tells
        (O.contents out.old) (O.contents out.new) store.old
        (λ o. follows (by_slots (modules_of programs.now)) (modules_of programs.now)
        (outermost (by_slots (modules_of programs.now)) (modules_of programs.now) code
        (plains values.items) budget (effects_of store.old o))))) }
    ensures calls { CallsSome T.moves T.refused tracer.old tracer.new }
    ensures reads { I.faults input.old ≤ I.faults input.new }
    ensures writes { O.faults out.old ≤ O.faults out.new }
    ensures read_fault { IsErrOf result RunFault.ReadFault
        → Rose (I.faults input.old) (I.faults input.new) }
    ensures write_fault { IsErrOf result RunFault.WriteFault
        → Rose (O.faults out.old) (O.faults out.new) }
{
    if budget == 0 {
        drop(values);
        return Ok(Ended {
            ending: Ending::Spent,
            steps: 0,
        });
    }
    let mut m = first(alloc, code, values, budget - 1, programs)?;
    store.enter(alloc, code, programs)?;
    tracer.event(alloc, &Event::Call(code))?;
    let ending = go_on(alloc, &mut m, store, programs, tracer, input, out)?;
    Ok(Ended {
        ending,
        steps: m.steps,
    })
}

/// The machine as it begins.
fn first(
    alloc: Global,
    code: CodeId,
    values: Vec<Value>,
    steps: u64,
    programs: &Programs,
) -> Result<State, NoMemory>
    requires { HasUnit (modules_of programs.now) code }
    ensures start { IfOk result (λ m. AtStart (modules_of programs.now) m) }
    ensures frame { IfOk result (λ m. plain_frame m.top
        ≡ new_frame (by_slots (modules_of programs.now)) (modules_of programs.now) code
        (plains values.items) 1) }
    ensures steps { IfOk result (λ m. m.steps ≡ steps) }
{
    let top = new_frame(alloc, code, values, 1, programs)?;
    Ok(State {
        top,
        callers: Stack::new(alloc),
        steps,
        spare: Vec::new(alloc),
    })
}

/// Runs the machine to its end.
fn go_on<T: Tracer, I: Source, O: Sink>(
    alloc: Global,
    m: &mut State,
    store: &mut Store,
    programs: &Programs,
    tracer: &mut T,
    input: &mut I,
    out: &mut O,
) -> Result<Ending, RunFault>
    requires few { length (modules_of programs.now) ≤ most_numbered }
    requires some { 0 < length (modules_of programs.now) }
    requires valid { AreCodes (modules_of programs.now) }
    requires start { AtStart (modules_of programs.now) m.old }
    ensures ok { IfOk result (λ ending. OnInput I.tells (I.left input.old) (I.left input.new)
        (Ends (λ es. Takes T.moves tracer.old es tracer.new)
        (Wrote O.tells (O.contents out.old) (O.contents out.new))
        (λ o. go (machine (by_slots (modules_of programs.now)) (modules_of programs.now))
        (seen m.old store.old o))
        ending m.new.steps store.new)) }
    ensures given_up { IfErr result (λ fault. OnInputUntil I.tells (I.left input.old)
        (I.left input.new)
        (RunGivenUp (λ es. TakesUntil T.moves T.refused fault tracer.old es tracer.new) O.tells
        (O.contents out.old) (O.contents out.new) store.old
        (λ o. go (machine (by_slots (modules_of programs.now)) (modules_of programs.now))
        (seen m.old store.old o)))) }
    ensures calls { CallsSome T.moves T.refused tracer.old tracer.new }
    ensures reads { I.faults input.old ≤ I.faults input.new }
    ensures writes { O.faults out.old ≤ O.faults out.new }
    ensures read_fault { IsErrOf result RunFault.ReadFault
        → Rose (I.faults input.old) (I.faults input.new) }
    ensures write_fault { IsErrOf result RunFault.WriteFault
        → Rose (O.faults out.old) (O.faults out.new) }
{
    // Whether the input was found at its end. It isn't read again then.
    let mut at_end = false;
    loop {
        if let Some(ending) = step(alloc, m, store, programs, tracer, &mut at_end, input, out)? {
            return Ok(ending);
        }
    }
}
