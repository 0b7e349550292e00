// Where the instructions of a unit go on, and how many operands stand there.
ghost use Rattle.std.specs.Prelude.{◌≡◌, ◌<◌, ◌+◌, suc, [], ◌∷◌, Some, true, IsTrue, slice_get};
ghost use Rattle.py_code.specs.Footprints.{is_mark, quiet, risky, forked, risky_fork, exit, ways};
ghost use Rattle.py_code.specs.Footprints.{footprint};
ghost use Rattle.py_code.specs.Units.{plain_unit, handler_of};
ghost use Rattle.py_code.specs.Valid.{marks_at, Leads, Lands, LandsAt};
ghost use Rattle.py_run_tests.specs.Checked.{Flows};

use py_code::{Handler, Instr, Unit};
use py_world::handler_among;

/// Whether so many operands stand at a place.
pub(crate) fn stands(depths: &[usize], place: usize, depth: usize) -> bool
    ensures { IsTrue result → slice_get depths.now place ≡ Some depth }
{
    match depths.get(place) {
        None => false,
        Some(found) => *found == depth,
    }
}

/// Whether the instruction at a place marks a line.
fn marks(unit: &Unit, place: usize) -> bool
    ensures { IsTrue result → marks_at (slice_get (plain_unit unit.now).instrs place) ≡ true }
{
    match unit.instrs.get(place) {
        None => false,
        Some(instr) => is_mark(*instr),
    }
}

fn is_mark(instr: Instr) -> bool
    ensures { IsTrue result → is_mark instr ≡ true }
{
    match instr {
        Instr::Mark(_) => true,
        Instr::Again(_) => true,
        _ => false,
    }
}

/// Whether a place may be gone to from another, with so many operands.
fn leads(unit: &Unit, depths: &[usize], place: usize, to: usize, depth: usize) -> bool
    ensures { IsTrue result → Leads (plain_unit unit.now) depths.now place to depth }
{
    if !stands(depths, to, depth) {
        return false;
    }
    if place < to {
        return true;
    }
    marks(unit, to)
}

/// The same, with so many operands above the rest.
fn goes(unit: &Unit, depths: &[usize], place: usize, to: usize, rest: usize, leaves: usize) -> bool
    ensures { IsTrue result → Leads (plain_unit unit.now) depths.now place to (leaves + rest) }
{
    match leaves.checked_add(rest) {
        None => false,
        Some(depth) => leads(unit, depths, place, to, depth),
    }
}

/// Whether an exception at a place finds its handler with enough operands, if there is one.
fn lands(unit: &Unit, depths: &[usize], place: usize, rest: usize) -> bool
    ensures { IsTrue result
        → LandsAt depths.now place rest (handler_of place (plain_unit unit.now).handlers) }
{
    match handler_among(&unit.handlers, place) {
        None => true,
        Some(handler) => lands_at(depths, place, rest, handler),
    }
}

fn lands_at(depths: &[usize], place: usize, rest: usize, handler: Handler) -> bool
    ensures { IsTrue result → Lands depths.now place rest handler }
{
    let depth = handler.depth as usize;
    let target = handler.target as usize;
    if depth > rest {
        return false;
    }
    if place >= target {
        return false;
    }
    stands(depths, target, depth + 1)
}

/// Takes and leaves so many operands, and goes on at the next place.
fn falls(unit: &Unit, depths: &[usize], place: usize, depth: usize, moves: (usize, usize)) -> bool
    requires { place < usize.MAX }
    ensures { IsTrue result
        → Flows (plain_unit unit.now) depths.now place depth (quiet place moves.0 moves.1) }
{
    let (takes, leaves) = moves;
    if takes > depth {
        return false;
    }
    goes(unit, depths, place, place + 1, depth - takes, leaves)
}

/// The same, or raises an exception.
fn risks(unit: &Unit, depths: &[usize], place: usize, depth: usize, moves: (usize, usize)) -> bool
    requires { place < usize.MAX }
    ensures { IsTrue result
        → Flows (plain_unit unit.now) depths.now place depth (risky place moves.0 moves.1) }
{
    let (takes, leaves) = moves;
    if takes > depth {
        return false;
    }
    if !lands(unit, depths, place, depth - takes) {
        return false;
    }
    goes(unit, depths, place, place + 1, depth - takes, leaves)
}

/// Goes on at another place.
fn jumps(
    unit: &Unit,
    depths: &[usize],
    place: usize,
    depth: usize,
    takes: usize,
    to: u32,
    leaves: usize,
) -> bool
    ensures { IsTrue result
        → Flows (plain_unit unit.now) depths.now place depth (forked takes (exit to leaves ∷ [])) }
{
    if takes > depth {
        return false;
    }
    goes(unit, depths, place, to as usize, depth - takes, leaves)
}

/// Takes an operand, and goes on at the next place or at another.
fn forks(unit: &Unit, depths: &[usize], place: usize, depth: usize, to: u32) -> bool
    requires { place < usize.MAX }
    ensures { IsTrue result
        → Flows (plain_unit unit.now) depths.now place depth
        (forked 1 (exit (suc place) 0 ∷ exit to 0 ∷ [])) }
{
    if depth == 0 {
        return false;
    }
    if !goes(unit, depths, place, place + 1, depth - 1, 0) {
        return false;
    }
    goes(unit, depths, place, to as usize, depth - 1, 0)
}

/// Takes the walk on top, and goes on with it and an item, or at another place.
fn walks(unit: &Unit, depths: &[usize], place: usize, depth: usize, to: u32) -> bool
    requires { place < usize.MAX }
    ensures { IsTrue result
        → Flows (plain_unit unit.now) depths.now place depth
        (risky_fork 1 (exit (suc place) 2 ∷ exit to 0 ∷ [])) }
{
    if depth == 0 {
        return false;
    }
    if !lands(unit, depths, place, depth - 1) {
        return false;
    }
    if !goes(unit, depths, place, place + 1, depth - 1, 2) {
        return false;
    }
    goes(unit, depths, place, to as usize, depth - 1, 0)
}

/// Takes the way out on top, and goes on after it.
fn settles(unit: &Unit, depths: &[usize], place: usize, depth: usize) -> bool
    requires { place + 4 < usize.MAX }
    ensures { IsTrue result
        → Flows (plain_unit unit.now) depths.now place depth (risky_fork 1 (ways place)) }
{
    if depth == 0 {
        return false;
    }
    if !lands(unit, depths, place, depth - 1) {
        return false;
    }
    if !goes(unit, depths, place, 4 + place, depth - 1, 0) {
        return false;
    }
    if !goes(unit, depths, place, 1 + place, depth - 1, 0) {
        return false;
    }
    if !goes(unit, depths, place, 2 + place, depth - 1, 0) {
        return false;
    }
    goes(unit, depths, place, 3 + place, depth - 1, 1)
}

/// Takes an operand, and the frame ends.
fn ends(unit: &Unit, depths: &[usize], place: usize, depth: usize) -> bool
    ensures { IsTrue result
        → Flows (plain_unit unit.now) depths.now place depth (forked 1 []) }
{
    if depth == 0 {
        return false;
    }
    true
}

/// Takes an operand, and raises an exception.
fn raises(unit: &Unit, depths: &[usize], place: usize, depth: usize) -> bool
    ensures { IsTrue result
        → Flows (plain_unit unit.now) depths.now place depth (risky_fork 1 []) }
{
    if depth == 0 {
        return false;
    }
    lands(unit, depths, place, depth - 1)
}

/// Whether an instruction goes on where as many operands stand as it leaves. Of the instructions
/// that no row has it isn't known.
pub(crate) fn flows(unit: &Unit, depths: &[usize], place: usize, depth: usize, instr: Instr) -> bool
    requires { place + 4 < usize.MAX }
    ensures { IsTrue result
        → Flows (plain_unit unit.now) depths.now place depth (footprint place instr) }
{
    match instr {
        Instr::Constant(_) => falls(unit, depths, place, depth, (0, 1)),
        Instr::Pop => falls(unit, depths, place, depth, (1, 0)),
        Instr::LoadLocal(_) => risks(unit, depths, place, depth, (0, 1)),
        Instr::StoreLocal(_) => falls(unit, depths, place, depth, (1, 0)),
        Instr::LoadGlobal(_) => risks(unit, depths, place, depth, (0, 1)),
        Instr::StoreGlobal(_) => falls(unit, depths, place, depth, (1, 0)),
        Instr::Tuple(n) => risks(unit, depths, place, depth, (n as usize, 1)),
        Instr::List(n) => risks(unit, depths, place, depth, (n as usize, 1)),
        Instr::Compare(_) => risks(unit, depths, place, depth, (2, 1)),
        Instr::Goto(to) => jumps(unit, depths, place, depth, 0, to, 0),
        Instr::IfFalse(to) => forks(unit, depths, place, depth, to),
        Instr::Mark(_) => falls(unit, depths, place, depth, (0, 0)),
        Instr::Again(_) => falls(unit, depths, place, depth, (0, 0)),
        Instr::Walk => risks(unit, depths, place, depth, (1, 1)),
        Instr::Next(to) => walks(unit, depths, place, depth, to),
        Instr::Call(n) => risks(unit, depths, place, depth, (n as usize + 1, 1)),
        Instr::Return => ends(unit, depths, place, depth),
        Instr::Function(_) => falls(unit, depths, place, depth, (0, 1)),
        Instr::FunctionWith(_) => falls(unit, depths, place, depth, (1, 1)),
        Instr::Raise => raises(unit, depths, place, depth),
        Instr::Leave(n, to) => jumps(unit, depths, place, depth, n as usize, to, 0),
        Instr::Ending => falls(unit, depths, place, depth, (0, 1)),
        Instr::Breaking(n, to) => jumps(unit, depths, place, depth, n as usize, to, 1),
        Instr::Continuing(n, to) => jumps(unit, depths, place, depth, n as usize, to, 1),
        Instr::Returning(n, to) => jumps(unit, depths, place, depth, n as usize + 1, to, 1),
        Instr::Settle => settles(unit, depths, place, depth),
        _ => false,
    }
}
