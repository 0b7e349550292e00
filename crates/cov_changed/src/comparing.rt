//! Compares two texts piece by piece: `compare`.
ghost use Rattle.std.specs.Prelude.{◌≡◌, ◌≤◌, ◌<◌, ◌^◌, length, drop, IfOk, OnOk};
ghost use Rattle.cov_pieces.specs.Views.{plain_piece, pieces_of};
ghost use Rattle.cov_changed.specs.Compared.{depth_after, skipped, is_aside, past_asides, leaving_out, meets, turn, compared};
ghost use Rattle.cov_changed.specs.Views.{AddsLines, Skips, Turns};

use crate::alike::is_alike;
use crate::changes::{Changes, add_mark};
use cov_pieces::Piece;
use py_text::NoMemory;

/// Where a comparison goes on: how many parts of the old text are left out, and the place in the
/// new one.
#[derive(Clone, Copy)]
struct Left {
    depth: usize,
    at: usize,
}

/// Adds the marks of the parts that differ. At the first difference in a part all its marks do.
pub(crate) fn compare(
    found: &mut Changes,
    before: &[Piece],
    after: &[Piece],
) -> Result<(), NoMemory>
    ensures { OnOk result (AddsLines found.old found.new
        (compared 0 (pieces_of before.now) (pieces_of after.now))) }
{
    let mut depth = 0;
    let mut at = 0;
    for piece in before {
        let left = step(found, depth, piece, after, at)?;
        depth = left.depth;
        at = left.at;
    }
    Ok(())
}

fn step(
    found: &mut Changes,
    depth: usize,
    piece: &Piece,
    after: &[Piece],
    at: usize,
) -> Result<Left, NoMemory>
    requires small { depth < 2 ^ 63 }
    requires there { at ≤ length after.now }
    ensures { IfOk result (λ left. Turns found.old found.new after.now
        (turn depth (plain_piece piece.now) (pieces_of (drop at after.now))) left) }
{
    if depth > 0 {
        add_mark(&mut found.before, piece)?;
        return Ok(Left {
            depth: depth_after(depth, piece),
            at,
        });
    }
    if is_aside(piece) {
        return Ok(Left { depth: 0, at });
    }
    meet(found, piece, after, past_asides(after, at))
}

/// Compares a piece with the first one that is left.
fn meet(found: &mut Changes, piece: &Piece, after: &[Piece], at: usize) -> Result<Left, NoMemory>
    requires { at ≤ length after.now }
    ensures { IfOk result (λ left. Turns found.old found.new after.now
        (meets (plain_piece piece.now) (pieces_of (drop at after.now))) left) }
{
    if at < after.len() {
        if is_alike(piece, &after[at]) {
            return Ok(Left {
                depth: 0,
                at: at + 1,
            });
        }
    }
    leave_out(found, piece, after, at)
}

/// Leaves out what is left of a part, and adds its marks.
fn leave_out(
    found: &mut Changes,
    piece: &Piece,
    after: &[Piece],
    at: usize,
) -> Result<Left, NoMemory>
    requires { at ≤ length after.now }
    ensures { IfOk result (λ left. Turns found.old found.new after.now
        (leaving_out (plain_piece piece.now) (skipped 1 (pieces_of (drop at after.now)))) left) }
{
    add_mark(&mut found.before, piece)?;
    let next = skip(&mut found.after, after, at)?;
    Ok(Left {
        depth: depth_after(1, piece),
        at: next,
    })
}

/// The place after the end of a part. The lines of the marks in front of it are added.
fn skip(lines: &mut Vec<u32>, after: &[Piece], at: usize) -> Result<usize, NoMemory>
    requires { at ≤ length after.now }
    ensures { IfOk result (λ next. (next ≤ length after.now)
        × Skips lines.old.items lines.new.items (pieces_of (drop at after.now))
        (pieces_of (drop next after.now))) }
{
    let mut depth = 1;
    for i in at..after.len() {
        if depth == 0 {
            return Ok(i);
        }
        let piece = &after[i];
        add_mark(lines, piece)?;
        depth = depth_after(depth, piece);
    }
    Ok(after.len())
}

/// How many parts are open after a piece.
fn depth_after(depth: usize, piece: &Piece) -> usize
    requires { depth < 2 ^ 63 }
    ensures { result ≡ depth_after depth (plain_piece piece.now) }
{
    match *piece {
        Piece::Number(_) | Piece::Int(_) | Piece::Name(_) | Piece::Assigned(_) => depth,
        Piece::Row(_) => depth,
        Piece::Open => depth + 1,
        Piece::Inside => depth,
        Piece::Close => depth.saturating_sub(1),
        Piece::Mark(_) | Piece::Declared(_) | Piece::Defined(_) => depth,
    }
}

/// Whether a piece isn't compared.
fn is_aside(piece: &Piece) -> bool
    ensures { result ≡ is_aside (plain_piece piece.now) }
{
    match *piece {
        Piece::Number(_) | Piece::Int(_) | Piece::Name(_) | Piece::Assigned(_) => false,
        Piece::Row(_) | Piece::Open | Piece::Inside | Piece::Close => false,
        Piece::Mark(_) | Piece::Declared(_) | Piece::Defined(_) => true,
    }
}

/// The place of the first piece that is compared, from a place on.
fn past_asides(after: &[Piece], at: usize) -> usize
    requires { at ≤ length after.now }
    ensures there { result ≤ length after.now }
    ensures rest { pieces_of (drop result after.now)
        ≡ past_asides (pieces_of (drop at after.now)) }
{
    for i in at..after.len() {
        if !is_aside(&after[i]) {
            return i;
        }
    }
    after.len()
}
