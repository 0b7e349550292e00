// Units that are written down by their instructions, checked to be code.
ghost use Rattle.std.specs.Prelude.{◌≡◌, ◌<◌, ◌+◌, length, map, IsTrue};
ghost use Rattle.py_code.specs.Units.{plain_unit};
ghost use Rattle.py_code.specs.Valid.{HasNumbers, FitsAt, IsHandler, IsWithin, AreNested};
ghost use Rattle.py_code.specs.Valid.{IsValid};
ghost use Rattle.py_run_tests.specs.Checked.{FitsIn, AllFit, IsNested, AllNested, StandsIn, AllStand};

use crate::flows::{flows, stands};
use py_code::{Handler, Instr, Unit};

/// Whether the numbers of an instruction lie in the lists of its unit, which is one of so many. Of
/// the instructions that no row has it isn't known.
fn has_numbers(unit: &Unit, units: usize, instr: Instr) -> bool
    ensures { IsTrue result → HasNumbers (plain_unit unit.now) units instr }
{
    match instr {
        Instr::Constant(n) => (n as usize) < unit.constants.len(),
        Instr::Pop => true,
        Instr::LoadLocal(n) => (n as usize) < unit.locals.len(),
        Instr::StoreLocal(n) => (n as usize) < unit.locals.len(),
        Instr::LoadGlobal(n) => (n as usize) < unit.names.len(),
        Instr::StoreGlobal(n) => (n as usize) < unit.names.len(),
        Instr::Tuple(_) => true,
        Instr::List(_) => true,
        Instr::Compare(_) => true,
        Instr::Goto(_) => true,
        Instr::IfFalse(_) => true,
        Instr::Mark(n) => (n as usize) < unit.lines.len(),
        Instr::Again(n) => (n as usize) < unit.lines.len(),
        Instr::Walk => true,
        Instr::Next(_) => true,
        Instr::Call(_) => true,
        Instr::Return => true,
        Instr::Function(k) => k > 0 && (k as usize) < units,
        Instr::FunctionWith(k) => k > 0 && (k as usize) < units,
        Instr::Raise => true,
        Instr::Leave(_, _) => true,
        Instr::Ending => true,
        Instr::Breaking(_, _) => true,
        Instr::Continuing(_, _) => true,
        Instr::Returning(_, _) => true,
        Instr::Settle => true,
        _ => false,
    }
}

fn fits_at(
    unit: &Unit,
    units: usize,
    depths: &[usize],
    place: usize,
    depth: usize,
    instr: Instr,
) -> bool
    requires { place + 4 < usize.MAX }
    ensures { IsTrue result
        → FitsAt (plain_unit unit.now) units depths.now place depth instr }
{
    if !has_numbers(unit, units, instr) {
        return false;
    }
    flows(unit, depths, place, depth, instr)
}

/// Whether the instruction at a place fits there.
fn fits_in(unit: &Unit, units: usize, depths: &[usize], place: usize) -> bool
    requires { place + 4 < usize.MAX }
    ensures { IsTrue result → FitsIn (plain_unit unit.now) units depths.now place }
{
    match depths.get(place) {
        None => false,
        Some(depth) => match unit.instrs.get(place) {
            None => false,
            Some(instr) => fits_at(unit, units, depths, place, *depth, *instr),
        },
    }
}

fn all_fit(unit: &Unit, units: usize, depths: &[usize]) -> bool
    ensures { IsTrue result → AllFit (plain_unit unit.now) units depths.now
        (length (plain_unit unit.now).instrs) }
{
    let mut place = 0;
    while place < unit.instrs.len() {
        if place > 1_000_000 {
            return false;
        }
        if !fits_in(unit, units, depths, place) {
            return false;
        }
        place += 1;
    }
    true
}

/// Whether an entry of the handler table is well formed.
fn is_handler(unit: &Unit, depths: &[usize], handler: Handler) -> bool
    ensures { IsTrue result → IsHandler (plain_unit unit.now) depths.now handler }
{
    let from = handler.from as usize;
    let to = handler.to as usize;
    if from > to {
        return false;
    }
    if to > unit.instrs.len() {
        return false;
    }
    let target = handler.target as usize;
    if to > target {
        return false;
    }
    stands(depths, target, handler.depth as usize + 1)
}

/// Whether two ranges are nested.
fn are_nested(one: Handler, other: Handler) -> bool
    ensures { IsTrue result → AreNested one other }
{
    if one.to <= other.from {
        return true;
    }
    if other.to <= one.from {
        return true;
    }
    if is_within(one, other) {
        return true;
    }
    is_within(other, one)
}

/// Whether a range lies in another.
fn is_within(one: Handler, other: Handler) -> bool
    ensures { IsTrue result → IsWithin one other }
{
    if other.from > one.from {
        return false;
    }
    one.to <= other.to
}

fn is_nested(handlers: &[Handler], handler: Handler, number: usize) -> bool
    ensures { IsTrue result → IsNested handlers.now handler number }
{
    match handlers.get(number) {
        None => false,
        Some(other) => are_nested(handler, *other),
    }
}

fn all_nested(handlers: &[Handler], handler: Handler) -> bool
    ensures { IsTrue result → AllNested handlers.now handler (length handlers.now) }
{
    let mut number = 0;
    while number < handlers.len() {
        if !is_nested(handlers, handler, number) {
            return false;
        }
        number += 1;
    }
    true
}

/// Whether an entry stands well in its table.
fn stands_in(unit: &Unit, depths: &[usize], number: usize) -> bool
    ensures { IsTrue result → StandsIn (plain_unit unit.now) depths.now number }
{
    match unit.handlers.get(number) {
        None => false,
        Some(handler) => {
            if !is_handler(unit, depths, *handler) {
                return false;
            }
            all_nested(&unit.handlers, *handler)
        }
    }
}

fn all_stand(unit: &Unit, depths: &[usize]) -> bool
    ensures { IsTrue result → AllStand (plain_unit unit.now) depths.now
        (length (plain_unit unit.now).handlers) }
{
    let mut number = 0;
    while number < unit.handlers.len() {
        if !stands_in(unit, depths, number) {
            return false;
        }
        number += 1;
    }
    true
}

/// Whether so many operands stand at the places of a unit, which is one of so many.
pub(crate) fn is_valid(unit: &Unit, units: usize, depths: &[usize]) -> bool
    ensures { IsTrue result → IsValid (plain_unit unit.now) units depths.now }
{
    if depths.len() != unit.instrs.len() {
        return false;
    }
    if !stands(depths, 0, 0) {
        return false;
    }
    if !all_fit(unit, units, depths) {
        return false;
    }
    all_stand(unit, depths)
}
