// The frames that are open in a run.
ghost use Rattle.std.specs.Prelude.{◌≡◌, ◌∷◌, [], OnOk, OnErr, MatchOption};

use py_text::NoMemory;
use std::alloc::Global;
use std::marker::Model;

/// An open frame: the number of its module, the first line of its unit, counted from 1, and its
/// current line. Line 0 stands for the outside of the unit.
#[derive(Clone, Copy)]
pub struct Frame {
    pub module: u32,
    pub first: u32,
    pub line: u32,
}

/// Open frames, seen as the list that has the innermost in front.
#[derive(Drop)]
pub(crate) struct Frames {
    items: Vec<Frame>,
}

impl Model for Frames {
    ghost use Rattle.std.specs.Prelude.{List, reverse};
    ghost use Rattle.cov_arcs.specs.declared.frames.Frame.{Frame as Open};

    ghost Value = { List Open };

    ghost view = { λ a. reverse a.items.items };
}

impl Frames {
    ghost use Rattle.cov_arcs.specs.Told.{at_line};

    pub(crate) fn new(alloc: Global) -> Frames
        ensures { result ≡ [] }
    {
        Frames {
            items: Vec::new(alloc),
        }
    }

    pub(crate) fn innermost(&self) -> Option<Frame>
        ensures { MatchOption result (self.now ≡ []) (λ frame.
            (outer : _) × (self.now ≡ frame ∷ outer)) }
    {
        self.items.last().copied()
    }

    pub(crate) fn push(&mut self, frame: Frame) -> Result<(), NoMemory>
        ensures ok { OnOk result (self.new ≡ frame ∷ self.old) }
        ensures err { OnErr result (self.new ≡ self.old) }
    {
        self.items.push(frame)?;
        Ok(())
    }

    /// Closes the innermost frame.
    pub(crate) fn pop(&mut self) -> Option<Frame>
        ensures { MatchOption result ((self.old ≡ []) × (self.new ≡ [])) (λ frame.
            self.old ≡ frame ∷ self.new) }
    {
        self.items.pop()
    }

    /// Puts the innermost frame on a line.
    pub(crate) fn begin(&mut self, line: u32)
        ensures { self.new ≡ at_line self.old line }
    {
        let count = self.items.len();
        if count > 0 {
            self.items[count - 1].line = line;
        }
    }
}
