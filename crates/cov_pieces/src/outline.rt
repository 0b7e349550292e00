//! A text in pieces, as it is written down: `Outline`.
ghost use Rattle.std.specs.Prelude.{◌≡◌, ◌∷◌, [], false, IfOk};
ghost use Rattle.cov_pieces.specs.Pieces.{word, inside, close, mark};
ghost use Rattle.cov_pieces.specs.Views.{plain_piece, pieces_of, Adds, KeepsMarksAlone, Restores};
ghost use Rattle.cov_pieces.specs.Words.{a_number, truth, named};

use crate::piece::{Piece, is_mark};
use py_text::{NoMemory, Text};
use std::alloc::{AllocError, Global};

/// Pieces in a row. Where memory is wanting the rest is let go, and `finish` tells so.
#[derive(Drop)]
pub(crate) struct Outline<'a> {
    pieces: Vec<Piece<'a>>,
    /// Whether nothing but marks is kept.
    marks_alone: bool,
    full: bool,
}

impl<'a> Outline<'a> {
    pub(crate) fn new(alloc: Global) -> Outline<'a>
        ensures pieces { pieces_of result.pieces.items ≡ [] }
        ensures all { result.marks_alone ≡ false }
    {
        Outline {
            pieces: Vec::new(alloc),
            marks_alone: false,
            full: false,
        }
    }

    /// All pieces.
    pub(crate) fn finish(self) -> Result<Vec<Piece<'a>>, NoMemory>
        ensures { IfOk result (λ pieces. (self.entry.full ≡ false)
            × (pieces.items ≡ self.entry.pieces.items)) }
    {
        let Outline {
            pieces,
            marks_alone: _,
            full,
        } = self;
        if full {
            drop(pieces);
            Err(AllocError)
        } else {
            Ok(pieces)
        }
    }

    /// Adds a piece.
    pub(crate) fn push(&mut self, piece: Piece<'a>)
        ensures { Adds self.old self.new (plain_piece piece.entry ∷ []) }
    {
        if self.marks_alone && !is_mark(&piece) {
            return;
        }
        if self.pieces.push(piece).is_err() {
            self.full = true;
        }
    }

    pub(crate) fn number(&mut self, n: u32)
        ensures { Adds self.old self.new (word (a_number n) ∷ []) }
    {
        self.push(Piece::Number(n))
    }

    pub(crate) fn truth(&mut self, b: bool)
        ensures { Adds self.old self.new (word (truth b) ∷ []) }
    {
        self.number(if b { 1 } else { 0 })
    }

    /// Adds a name, and tells whether it is assigned.
    pub(crate) fn named(&mut self, assigned: bool, x: &'a Text)
        ensures { Adds self.old self.new (word (named assigned x.now) ∷ []) }
    {
        self.push(if assigned {
            Piece::Assigned(x)
        } else {
            Piece::Name(x)
        })
    }

    /// Adds the mark of a part, and ends the part.
    pub(crate) fn marked(&mut self, line: u32)
        ensures { Adds self.old self.new (inside ∷ mark line ∷ close ∷ []) }
    {
        self.push(Piece::Inside);
        self.push(Piece::Mark(line));
        self.push(Piece::Close)
    }

    /// From now on nothing but marks is kept. Tells whether that was so before.
    pub(crate) fn keep_marks_alone(&mut self) -> bool
        ensures { KeepsMarksAlone self.old self.new result }
    {
        let alone = self.marks_alone;
        self.marks_alone = true;
        alone
    }

    /// Keeps again what was kept before.
    pub(crate) fn restore(&mut self, alone: bool)
        ensures { Restores self.old self.new alone }
    {
        self.marks_alone = alone;
    }
}
