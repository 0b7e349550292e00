//! Changed lines of two versions: `Changes`.
ghost use Rattle.std.specs.Prelude.{◌≡◌, ◌++◌, [], OnOk};
ghost use Rattle.py_syntax.specs.Marks.{in_order};
ghost use Rattle.cov_pieces.specs.Pieces.{picked, mark_of};
ghost use Rattle.cov_pieces.specs.Views.{plain_piece, pieces_of};
ghost use Rattle.cov_changed.specs.Views.{lines_of, AddsLines};

use cov_pieces::Piece;
use py_text::NoMemory;
use std::alloc::Global;

/// Changed lines of the old version and of the new one, in any order.
#[derive(Drop)]
pub(crate) struct Changes {
    pub(crate) before: Vec<u32>,
    pub(crate) after: Vec<u32>,
}

impl Changes {
    pub(crate) fn new(alloc: Global) -> Changes
        ensures { lines_of result ≡ ([], []) }
    {
        Changes {
            before: Vec::new(alloc),
            after: Vec::new(alloc),
        }
    }

    /// Adds all marks of two texts.
    pub(crate) fn add_all(&mut self, before: &[Piece], after: &[Piece]) -> Result<(), NoMemory>
        ensures { OnOk result (AddsLines self.old self.new
            (picked mark_of (pieces_of before.now), picked mark_of (pieces_of after.now))) }
    {
        add_marks(&mut self.before, before)?;
        add_marks(&mut self.after, after)
    }
}

/// Adds the lines of all marks.
pub(crate) fn add_marks(lines: &mut Vec<u32>, pieces: &[Piece]) -> Result<(), NoMemory>
    ensures { OnOk result (lines.new.items ≡ lines.old.items
        ++ picked mark_of (pieces_of pieces.now)) }
{
    for piece in pieces {
        add_mark(lines, piece)?;
    }
    Ok(())
}

/// Adds the line of a mark.
pub(crate) fn add_mark(lines: &mut Vec<u32>, piece: &Piece) -> Result<(), NoMemory>
    ensures { OnOk result (lines.new.items ≡ lines.old.items ++ mark_of (plain_piece piece.now)) }
{
    match *piece {
        Piece::Number(_) | Piece::Int(_) | Piece::Name(_) | Piece::Assigned(_) => Ok(()),
        Piece::Row(_) | Piece::Open | Piece::Inside | Piece::Close => Ok(()),
        Piece::Mark(line) => {
            lines.push(line)?;
            Ok(())
        }
        Piece::Declared(_) | Piece::Defined(_) => Ok(()),
    }
}

/// Lines in order, each once.
pub(crate) fn in_order(lines: Vec<u32>) -> Vec<u32>
    ensures { result.items ≡ in_order lines.items }
{
    let mut lines = lines;
    lines.sort_unstable();
    lines.dedup();
    lines
}
