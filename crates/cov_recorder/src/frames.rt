// The frames that are open in a run.
ghost use Rattle.std.specs.Prelude.{◌≡◌, ◌∷◌, [], OnOk, OnErr, MatchOption};

use cov_event::CodeId;
use py_text::{NoMemory, Text};
use std::alloc::Global;
use std::marker::Model;

/// What is known of the unit of a frame: its first line, counted from 1, and the number of its row
/// of counters.
#[derive(Clone, Copy)]
pub(crate) struct Seat {
    pub(crate) first: u32,
    pub(crate) row: usize,
}

/// An open frame. Its line is 0 as it begins. It has no seat where its code isn't known.
#[derive(Drop)]
pub(crate) struct Frame {
    pub(crate) code: CodeId,
    pub(crate) line: u32,
    pub(crate) label: Option<Text>,
    pub(crate) seat: Option<Seat>,
}

/// Open frames, seen as the list that has the innermost in front.
#[derive(Drop)]
pub(crate) struct Frames {
    items: Vec<Frame>,
}

impl Model for Frames {
    ghost use Rattle.std.specs.Prelude.{List, reverse};
    ghost use Rattle.cov_recorder.specs.declared.frames.Frame.{Frame as Kept};

    ghost Value = { List Kept };

    ghost view = { λ a. reverse a.items.items };
}

impl Frames {
    ghost use Rattle.cov_recorder.specs.Frames.{kept_at_line};

    pub(crate) fn new(alloc: Global) -> Frames
        ensures { result ≡ [] }
    {
        Frames {
            items: Vec::new(alloc),
        }
    }

    pub(crate) fn innermost(&self) -> Option<&Frame>
        ensures { MatchOption result (self.now ≡ []) (λ frame.
            (outer : _) × (self.now ≡ frame.now ∷ outer)) }
    {
        self.items.last()
    }

    pub(crate) fn push(&mut self, frame: Frame) -> Result<(), NoMemory>
        ensures ok { OnOk result (self.new ≡ frame ∷ self.old) }
        ensures err { OnErr result (self.new ≡ self.old) }
    {
        self.items.push(frame)?;
        Ok(())
    }

    /// Closes the innermost frame.
    pub(crate) fn pop(&mut self) -> Option<Frame>
        ensures { MatchOption result ((self.old ≡ []) × (self.new ≡ [])) (λ frame.
            self.old ≡ frame ∷ self.new) }
    {
        self.items.pop()
    }

    /// Puts the innermost frame on a line.
    pub(crate) fn begin(&mut self, line: u32)
        ensures { self.new ≡ kept_at_line self.old line }
    {
        let count = self.items.len();
        if count > 0 {
            self.items[count - 1].line = line;
        }
    }
}
