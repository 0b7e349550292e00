// Steps of frames, and their counts.
ghost use Rattle.std.specs.Prelude.{◌≡◌, ◌≤◌, IsTrue, Some, IfSome, IfNone, slice_get};
ghost use Rattle.std.specs.List.{Contains};
ghost use Rattle.cov_recorder.specs.Recording.{end_of, step};
ghost use Rattle.cov_recorder.specs.Steps.{CountsArc, CountsAt};

use crate::frames::Frame;
use crate::hints::Hints;
use crate::rows::Rows;
use cov_predict::ArcSet;

/// A line as data show it: 0, the outside, is the first line, negative.
fn end_of(first: u32, line: u32) -> i32
    requires first { first ≤ 65535 }
    requires line { line ≤ 65535 }
    ensures { result ≡ end_of first line }
{
    if line == 0 {
        -(first as i32)
    } else {
        line as i32
    }
}

/// From a line to another one. In line data it is the other line alone.
fn step(arcs: bool, first: u32, from: u32, to: u32) -> (i32, i32)
    requires first { first ≤ 65535 }
    requires from { from ≤ 65535 }
    requires to { to ≤ 65535 }
    ensures { result ≡ step arcs first from to }
{
    if arcs {
        (end_of(first, from), end_of(first, to))
    } else {
        (to as i32, to as i32)
    }
}

/// Counts the step of a frame to a line, or to 0 as it ends, where that has a counter.
pub(crate) fn count(
    sets: &[ArcSet],
    arcs: bool,
    hints: &mut Hints,
    rows: &mut Rows,
    frame: &Frame,
    line: u32,
)
    requires first { IfSome frame.now.seat (λ seat. seat.first ≤ 65535) }
    requires from { frame.now.line ≤ 65535 }
    requires to { line ≤ 65535 }
    ensures { CountsAt sets.now arcs frame.now frame.now.seat line rows.old rows.new }
{
    if let Some(seat) = frame.seat {
        let module = frame.code.module;
        if let Some(set) = sets.get(module as usize) {
            let (from, to) = step(arcs, seat.first, frame.line, line);
            count_arc(set, module, from, to, hints, rows, seat.row);
        }
    }
}

fn count_arc(
    set: &ArcSet,
    module: u32,
    from: i32,
    to: i32,
    hints: &mut Hints,
    rows: &mut Rows,
    number: usize,
)
    ensures { CountsArc set.now (from, to) rows.old number rows.new }
{
    if let Some(place) = place_of(set, module, from, to, hints) {
        rows.bump(number, place as usize);
    }
}

/// The place of an arc in the set of its module, if it is there. It takes a search only where the
/// arc isn't the one that was last found from its line.
fn place_of(set: &ArcSet, module: u32, from: i32, to: i32, hints: &mut Hints) -> Option<u64>
    ensures some { IfSome result (λ place. slice_get set.now place ≡ Some (from, to)) }
    ensures none { IfNone result (Contains set.now (from, to) → ⊥) }
{
    if let Some(place) = hints.look(module, from) {
        if stands_at(set, place, from, to) {
            return Some(place);
        }
    }
    let found = set.place(from, to);
    if let Some(place) = found {
        hints.keep(module, from, place);
    }
    found
}

/// Whether an arc is the one at this place.
fn stands_at(set: &ArcSet, place: u64, from: i32, to: i32) -> bool
    ensures { IsTrue result → slice_get set.now place ≡ Some (from, to) }
{
    if place < set.len() {
        let arc = set.at(place);
        arc.0 == from && arc.1 == to
    } else {
        false
    }
}
