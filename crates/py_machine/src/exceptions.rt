// Exceptions on their way, and frames that end.
ghost use Rattle.std.specs.Prelude.{IfOk, OnErr, map};
ghost use Rattle.cov_event.specs.Moves.{Takes};
ghost use Rattle.py_value.specs.View.{plain, plain_raised};
ghost use Rattle.py_code.specs.Loaded.{modules_of};
ghost use Rattle.py_code.specs.Machine.{leave, throw, escapes, give};
ghost use Rattle.py_code.specs.Slots.{by_slots};
ghost use Rattle.py_machine.specs.Told.{Tells, TakesSome, MoveGivenUp};
ghost use Rattle.py_instructions.specs.View.{plain_frame, effects_of, seen};

use crate::ending::Ending;
use cov_event::{Event, Tracer};
use py_code::Programs;
use py_instructions::{Operand, State};
use py_value::{NoMemory, Raised, Value};
use py_world::Store;
use std::alloc::{AllocError, Global};

/// An exception leaves the top frame.
fn leave<T: Tracer>(
    alloc: Global,
    raised: Raised,
    m: &mut State,
    store: &mut Store,
    programs: &Programs,
    tracer: &mut T,
) -> Result<Option<Ending>, NoMemory>
    ensures ok { IfOk result (λ how. Tells (λ es. Takes T.moves tracer.old es tracer.new)
        (λ o. leave (by_slots (modules_of programs.now)) (modules_of programs.now)
        (plain_raised raised) m.old.top.code (map plain_frame m.old.callers) m.old.steps
        (effects_of store.old o))
        (seen m.new store.new) how) }
    ensures given_up { OnErr result (MoveGivenUp
        (λ es. TakesSome T.moves T.refused tracer.old es tracer.new) store.old
        (λ o. leave (by_slots (modules_of programs.now)) (modules_of programs.now)
        (plain_raised raised) m.old.top.code (map plain_frame m.old.callers) m.old.steps
        (effects_of store.old o))) }
{
    loop {
        tracer.event(alloc, &Event::Return)?;
        store.fail(m.top.code);
        match m.callers.pop() {
            None => return Ok(Some(Ending::Failed(raised))),
            Some(f) => {
                m.top = f;
            }
        }
        tracer.event(alloc, &Event::Throw(raised.kind))?;
        if m.catch(&raised, true, programs)? {
            drop(raised);
            return Ok(None);
        }
    }
}

/// An exception is on its way in the top frame, with whether it was thrown there.
pub fn escape<T: Tracer>(
    alloc: Global,
    raised: Raised,
    is_thrown: bool,
    m: &mut State,
    store: &mut Store,
    programs: &Programs,
    tracer: &mut T,
) -> Result<Option<Ending>, NoMemory>
    ensures ok { IfOk result (λ how. Tells (λ es. Takes T.moves tracer.old es tracer.new)
        (λ o. escapes (by_slots (modules_of programs.now)) (modules_of programs.now)
        (plain_raised raised) is_thrown (seen m.old store.old o))
        (seen m.new store.new) how) }
    ensures given_up { OnErr result (MoveGivenUp
        (λ es. TakesSome T.moves T.refused tracer.old es tracer.new) store.old
        (λ o. escapes (by_slots (modules_of programs.now)) (modules_of programs.now)
        (plain_raised raised) is_thrown (seen m.old store.old o))) }
{
    if m.catch(&raised, is_thrown, programs)? {
        drop(raised);
        return Ok(None);
    }
    Ok(leave(alloc, raised, m, store, programs, tracer)?)
}

/// An exception is thrown in the top frame.
pub fn throw<T: Tracer>(
    alloc: Global,
    raised: Raised,
    m: &mut State,
    store: &mut Store,
    programs: &Programs,
    tracer: &mut T,
) -> Result<Option<Ending>, NoMemory>
    ensures ok { IfOk result (λ how. Tells (λ es. Takes T.moves tracer.old es tracer.new)
        (λ o. throw (by_slots (modules_of programs.now)) (modules_of programs.now)
        (plain_raised raised) (seen m.old store.old o))
        (seen m.new store.new) how) }
    ensures given_up { OnErr result (MoveGivenUp
        (λ es. TakesSome T.moves T.refused tracer.old es tracer.new) store.old
        (λ o. throw (by_slots (modules_of programs.now)) (modules_of programs.now)
        (plain_raised raised) (seen m.old store.old o))) }
{
    tracer.event(alloc, &Event::Throw(raised.kind))?;
    Ok(escape(alloc, raised, true, m, store, programs, tracer)?)
}

/// The top frame ends with a value.
pub fn give<T: Tracer>(
    alloc: Global,
    value: Value,
    m: &mut State,
    store: &Store,
    programs: &Programs,
    tracer: &mut T,
) -> Result<Option<Ending>, NoMemory>
    ensures ok { IfOk result (λ how. Tells (λ es. Takes T.moves tracer.old es tracer.new)
        (λ o. give (by_slots (modules_of programs.now)) (modules_of programs.now) (plain value)
        (map plain_frame m.old.callers) m.old.steps (effects_of store.now o))
        (seen m.new store.now) how) }
    ensures given_up { OnErr result (MoveGivenUp
        (λ es. TakesSome T.moves T.refused tracer.old es tracer.new) store.now
        (λ o. give (by_slots (modules_of programs.now)) (modules_of programs.now) (plain value)
        (map plain_frame m.old.callers) m.old.steps (effects_of store.now o))) }
{
    tracer.event(alloc, &Event::Return)?;
    match m.callers.pop() {
        None => Ok(Some(Ending::Gave(value))),
        Some(f) => {
            m.top = f;
            match m.top.place.checked_add(1) {
                None => Err(AllocError),
                Some(place) => {
                    m.top.place = place;
                    m.top.operands.push(Operand::Value(value))?;
                    Ok(None)
                }
            }
        }
    }
}
