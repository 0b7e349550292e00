// What is left of an instruction: events, output and input.
ghost use Rattle.std.specs.Prelude.{◌≡◌, ◌≤◌, true, length, IfOk, IfErr, IsErrOf};
ghost use Rattle.cov_event.specs.Moves.{Takes};
ghost use Rattle.cov_outside.specs.Counts.{Rose};
ghost use Rattle.py_builtins.specs.Inputs.{Wrote};
ghost use Rattle.py_code.specs.Loaded.{modules_of, most_numbered};
ghost use Rattle.py_code.specs.Machine.{move};
ghost use Rattle.py_code.specs.Slots.{by_slots};
ghost use Rattle.py_instructions.specs.declared.turn.Turn.TheVariants.{Asks};
ghost use Rattle.py_machine.specs.Told.{IsAtEnd, After, Step, TakesUntil, CallsSome, PartOnInputUntil, PartGivenUp};
ghost use Rattle.py_instructions.specs.View.{seen, turned};

use crate::ending::Ending;
use crate::exceptions::{escape, give, throw};
use crate::inputs::call_to_end;
use cov_event::Tracer;
use cov_outside::{Sink, Source};
use py_builtins::RunFault;
use py_code::Programs;
use py_instructions::{Operand, State, Turn, emptied};
use py_value::{Builtin, Value};
use py_world::Store;
use std::alloc::Global;

/// Calls a built-in function for the top frame. `at_end`: whether the input was found at its end.
fn ask<T: Tracer, I: Source, O: Sink>(
    alloc: Global,
    m: &mut State,
    store: &mut Store,
    programs: &Programs,
    which: Builtin,
    values: Vec<Value>,
    tracer: &mut T,
    at_end: &mut bool,
    input: &mut I,
    out: &mut O,
) -> Result<Option<Ending>, RunFault>
    requires { IsAtEnd at_end.old I.tells (I.left input.old) }
    ensures ok { IfOk result (λ how. Step I.tells (I.left input.old) (I.left input.new)
        at_end.old at_end.new
        (λ es. Takes T.moves tracer.old es tracer.new)
        (Wrote O.tells (O.contents out.old) (O.contents out.new))
        (λ o. turned (modules_of programs.now) (Asks which values) (seen m.old store.old o))
        (seen m.new store.new) how) }
    ensures given_up { IfErr result (λ fault. PartOnInputUntil I.tells (I.left input.old)
        (I.left input.new) at_end.old
        (PartGivenUp (λ es. TakesUntil T.moves T.refused fault tracer.old es tracer.new) O.tells
        (O.contents out.old) (O.contents out.new) store.old
        (λ o. turned (modules_of programs.now) (Asks which values) (seen m.old store.old o)))) }
    ensures unread { at_end.old ≡ true → input.new ≡ input.old }
    ensures calls { CallsSome T.moves T.refused tracer.old tracer.new }
    ensures reads { I.faults input.old ≤ I.faults input.new }
    ensures writes { O.faults out.old ≤ O.faults out.new }
    ensures read_fault { IsErrOf result RunFault.ReadFault
        → Rose (I.faults input.old) (I.faults input.new) }
    ensures write_fault { IsErrOf result RunFault.WriteFault
        → Rose (O.faults out.old) (O.faults out.new) }
{
    let answer = call_to_end(alloc, which, &values, &mut store.heap, at_end, input, out)?;
    m.spare = emptied(values);
    match answer {
        Ok(value) => match m.top.place.checked_add(1) {
            None => {
                drop(value);
                Err(RunFault::NoMemory)
            }
            Some(place) => {
                m.top.operands.push(Operand::Value(value))?;
                m.top.place = place;
                Ok(None)
            }
        },
        Err(raised) => Ok(throw(alloc, raised, m, store, programs, tracer)?),
    }
}

/// Does what is left of an instruction.
fn perform<T: Tracer, I: Source, O: Sink>(
    turn: Turn,
    alloc: Global,
    m: &mut State,
    store: &mut Store,
    programs: &Programs,
    tracer: &mut T,
    at_end: &mut bool,
    input: &mut I,
    out: &mut O,
) -> Result<Option<Ending>, RunFault>
    requires { IsAtEnd at_end.old I.tells (I.left input.old) }
    ensures ok { IfOk result (λ how. Step I.tells (I.left input.old) (I.left input.new)
        at_end.old at_end.new
        (λ es. Takes T.moves tracer.old es tracer.new)
        (Wrote O.tells (O.contents out.old) (O.contents out.new))
        (λ o. turned (modules_of programs.now) turn (seen m.old store.old o))
        (seen m.new store.new) how) }
    ensures given_up { IfErr result (λ fault. PartOnInputUntil I.tells (I.left input.old)
        (I.left input.new) at_end.old
        (PartGivenUp (λ es. TakesUntil T.moves T.refused fault tracer.old es tracer.new) O.tells
        (O.contents out.old) (O.contents out.new) store.old
        (λ o. turned (modules_of programs.now) turn (seen m.old store.old o)))) }
    ensures unread { at_end.old ≡ true → input.new ≡ input.old }
    ensures calls { CallsSome T.moves T.refused tracer.old tracer.new }
    ensures reads { I.faults input.old ≤ I.faults input.new }
    ensures writes { O.faults out.old ≤ O.faults out.new }
    ensures read_fault { IsErrOf result RunFault.ReadFault
        → Rose (I.faults input.old) (I.faults input.new) }
    ensures write_fault { IsErrOf result RunFault.WriteFault
        → Rose (O.faults out.old) (O.faults out.new) }
{
    match turn {
        Turn::Goes => Ok(None),
        Turn::Steps => Ok(None),
        Turn::Tells(event) => {
            tracer.event(alloc, &event)?;
            Ok(None)
        }
        Turn::Throws(raised) => Ok(throw(alloc, raised, m, store, programs, tracer)?),
        Turn::Escapes(raised, is_thrown) => Ok(escape(
            alloc, raised, is_thrown, m, store, programs, tracer,
        )?),
        Turn::Gives(value) => Ok(give(alloc, value, m, store, programs, tracer)?),
        Turn::Asks(which, values) => Ok(ask(
            alloc, m, store, programs, which, values, tracer, at_end, input, out,
        )?),
        Turn::Spent => Ok(Some(Ending::Spent)),
        Turn::Stuck => Ok(Some(Ending::Stuck)),
    }
}

/// Instructions that are done at once, and then one with what is left to do of it.
pub fn step<T: Tracer, I: Source, O: Sink>(
    alloc: Global,
    m: &mut State,
    store: &mut Store,
    programs: &Programs,
    tracer: &mut T,
    at_end: &mut bool,
    input: &mut I,
    out: &mut O,
) -> Result<Option<Ending>, RunFault>
    requires few { length (modules_of programs.now) ≤ most_numbered }
    requires end { IsAtEnd at_end.old I.tells (I.left input.old) }
    ensures ok { IfOk result (λ how. After (modules_of programs.now) m.old store.old
        (λ mid kept. Step I.tells (I.left input.old) (I.left input.new) at_end.old at_end.new
        (λ es. Takes T.moves tracer.old es tracer.new)
        (Wrote O.tells (O.contents out.old) (O.contents out.new))
        (λ o. move (by_slots (modules_of programs.now)) (modules_of programs.now)
        (seen mid kept o)) (seen m.new store.new) how)) }
    ensures given_up { IfErr result (λ fault. After (modules_of programs.now) m.old store.old
        (λ mid kept. PartOnInputUntil I.tells (I.left input.old) (I.left input.new) at_end.old
        (PartGivenUp (λ es. TakesUntil T.moves T.refused fault tracer.old es tracer.new) O.tells
        (O.contents out.old) (O.contents out.new) kept
        (λ o. move (by_slots (modules_of programs.now)) (modules_of programs.now)
        (seen mid kept o))))) }
    ensures unread { at_end.old ≡ true → input.new ≡ input.old }
    ensures calls { CallsSome T.moves T.refused tracer.old tracer.new }
    ensures reads { I.faults input.old ≤ I.faults input.new }
    ensures writes { O.faults out.old ≤ O.faults out.new }
    ensures read_fault { IsErrOf result RunFault.ReadFault
        → Rose (I.faults input.old) (I.faults input.new) }
    ensures write_fault { IsErrOf result RunFault.WriteFault
        → Rose (O.faults out.old) (O.faults out.new) }
{
    let turn = m.next_turn(alloc, store, programs)?;
    Ok(perform(turn, alloc, m, store, programs, tracer, at_end, input, out)?)
}
