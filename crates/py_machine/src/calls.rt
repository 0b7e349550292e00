// Calls of one function.
ghost use Rattle.std.specs.Prelude.{◌<◌, ◌≤◌, length, IfOk, IfErr, IsErrOf};
ghost use Rattle.std.specs.Str.{chars};
ghost use Rattle.cov_event.specs.Moves.{Takes};
ghost use Rattle.cov_outside.specs.Counts.{Rose};
ghost use Rattle.py_value.specs.View.{plains};
ghost use Rattle.py_builtins.specs.Inputs.{Wrote};
ghost use Rattle.py_code.specs.Loaded.{modules_of, most_numbered};
ghost use Rattle.py_code.specs.Machine.{outer_call, follows};
ghost use Rattle.py_code.specs.Slots.{by_slots};
ghost use Rattle.py_code.specs.Valid.{AreCodes};
ghost use Rattle.py_machine.specs.Fitting.{CallFits};
ghost use Rattle.py_instructions.specs.Reaching.{plain_reach, BeginsUnit};
ghost use Rattle.py_machine.specs.Runs.{IsCall, StopsCall, request};
ghost use Rattle.py_machine.specs.Told.{OnInput, Ran as Ends, TakesUntil, CallsSome, OnInputUntil, RunGivenUp};
ghost use Rattle.py_instructions.specs.View.{effects_of};
ghost use Rattle.py_world.specs.Stores.{world_of};

use crate::ending::Ending;
use crate::outcome::Answer;
use crate::reach::reach_global;
use crate::runs::{Ended, begin};
use cov_event::Tracer;
use cov_outside::{Sink, Source};
use py_builtins::{RunFault, call_builtin};
use py_code::Programs;
use py_instructions::Reach;
use py_value::value::copy_all;
use py_value::{Text, Value};
use py_world::Store;
use std::alloc::Global;

/// Calls the function that a global of a module holds, on a store, within a budget of steps.
pub fn call<T: Tracer, I: Source, O: Sink>(
    alloc: Global,
    programs: &Programs,
    store: &mut Store,
    module: u32,
    function: &str,
    args: &[Value],
    budget: u64,
    tracer: &mut T,
    input: &mut I,
    out: &mut O,
) -> Result<Answer, RunFault>
    requires some { 0 < length (modules_of programs.now) }
    requires few { length (modules_of programs.now) ≤ most_numbered }
    ensures ok { IfOk result (λ answer. OnInput I.tells (I.left input.old) (I.left input.new)
        (IsCall (λ es. Takes T.moves tracer.old es tracer.new)
        (Wrote O.tells (O.contents out.old) (O.contents out.new)) (modules_of programs.now)
        (world_of store.old) (request «module» (chars function.now) (plains args.now)) budget
        answer (world_of store.new))) }
    ensures fits { IfOk result (λ answer. CallFits (modules_of programs.now) (world_of store.old)
        (plains args.now) answer.called (world_of store.new)) }
    ensures given_up { IfErr result (λ fault. OnInputUntil I.tells (I.left input.old)
        (I.left input.new)
        (StopsCall (λ es. TakesUntil T.moves T.refused fault tracer.old es tracer.new) O.tells
        (O.contents out.old) (O.contents out.new) (modules_of programs.now)
        (world_of store.old) (request «module» (chars function.now) (plains args.now))
        budget)) }
    ensures calls { CallsSome T.moves T.refused tracer.old tracer.new }
    ensures reads { I.faults input.old ≤ I.faults input.new }
    ensures writes { O.faults out.old ≤ O.faults out.new }
    ensures read_fault { IsErrOf result RunFault.ReadFault
        → Rose (I.faults input.old) (I.faults input.new) }
    ensures write_fault { IsErrOf result RunFault.WriteFault
        → Rose (O.faults out.old) (O.faults out.new) }
{
    programs.are_valid();
    let name = Text::from_str(alloc, function)?;
    let values = copy_all(alloc, args)?;
    let reach = reach_global(alloc, module, &name, values, store, programs)?;
    let ended = finish(alloc, reach, budget, store, programs, tracer, input, out)?;
    let steps = budget.saturating_sub(ended.steps);
    let called = ended.ending.into_called(alloc, &store.heap)?;
    Ok(Answer { called, steps })
}

/// Does what a call leads to, where nothing waits for it.
fn finish<T: Tracer, I: Source, O: Sink>(
    alloc: Global,
    reach: Reach,
    budget: u64,
    store: &mut Store,
    programs: &Programs,
    tracer: &mut T,
    input: &mut I,
    out: &mut O,
) -> Result<Ended, RunFault>
    requires some { 0 < length (modules_of programs.now) }
    requires few { length (modules_of programs.now) ≤ most_numbered }
    requires valid { AreCodes (modules_of programs.now) }
    requires unit { BeginsUnit (modules_of programs.now) reach }
    ensures ok { IfOk result (λ e. OnInput I.tells (I.left input.old) (I.left input.new)
        (Ends (λ es. Takes T.moves tracer.old es tracer.new)
        (Wrote O.tells (O.contents out.old) (O.contents out.new))
        (λ o. follows (by_slots (modules_of programs.now)) (modules_of programs.now)
        (outer_call (by_slots (modules_of programs.now)) (modules_of programs.now)
        (plain_reach reach (effects_of store.old o)) budget (effects_of store.old o)))
        e.ending e.steps store.new)) }
    ensures given_up { IfErr result (λ fault. OnInputUntil I.tells (I.left input.old)
        (I.left input.new)
        (RunGivenUp (λ es. TakesUntil T.moves T.refused fault tracer.old es tracer.new) O.tells
        (O.contents out.old) (O.contents out.new) store.old
        (λ o. follows (by_slots (modules_of programs.now)) (modules_of programs.now)
        (outer_call (by_slots (modules_of programs.now)) (modules_of programs.now)
        (plain_reach reach (effects_of store.old o)) budget (effects_of store.old o))))) }
    ensures calls { CallsSome T.moves T.refused tracer.old tracer.new }
    ensures reads { I.faults input.old ≤ I.faults input.new }
    ensures writes { O.faults out.old ≤ O.faults out.new }
    ensures read_fault { IsErrOf result RunFault.ReadFault
        → Rose (I.faults input.old) (I.faults input.new) }
    ensures write_fault { IsErrOf result RunFault.WriteFault
        → Rose (O.faults out.old) (O.faults out.new) }
{
    match reach {
        Reach::Gives(value) => Ok(Ended {
            ending: Ending::Gave(value),
            steps: budget,
        }),
        Reach::Raises(raised) => Ok(Ended {
            ending: Ending::Failed(raised),
            steps: budget,
        }),
        Reach::Begins(code, values) => Ok(begin(
            alloc, code, values, budget, store, programs, tracer, input, out,
        )?),
        Reach::Asks(which, values) => match call_builtin(
            alloc,
            which,
            &values,
            &mut store.heap,
            input,
            out,
        )? {
            Ok(value) => Ok(Ended {
                ending: Ending::Gave(value),
                steps: budget,
            }),
            Err(raised) => Ok(Ended {
                ending: Ending::Failed(raised),
                steps: budget,
            }),
        },
    }
}
