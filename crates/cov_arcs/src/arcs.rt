// A tracer that keeps the arcs of a run.
ghost use Rattle.std.specs.Prelude.{◌≡◌, None, Some, map, slice_get, OnOk, IfOk, OnErr, MatchOption};
ghost use Rattle.py_meaning.specs.Crossings.{shown_line};

use crate::frames::{Frame, Frames};
use crate::sets::Sets;
use cov_event::{CodeId, Event, Tracer};
use py_text::NoMemory;
use std::alloc::Global;
use std::collections::BTreeSet;
use std::marker::Model;

/// Keeps the arcs of each module of a run that it is told of.
#[derive(Drop)]
pub struct Arcs {
    firsts: Vec<Vec<u32>>,
    frames: Frames,
    sets: Sets,
}

impl Model for Arcs {
    ghost use Rattle.std.specs.Prelude.{map};
    ghost use Rattle.cov_arcs.specs.Tracing.{Tracing};

    ghost Value = { Tracing };

    ghost view = { λ a. record {
      firsts = map (λ lines. lines.items) a.firsts.items;
      frames = a.frames;
      arcs = a.sets;
    } };
}

/// The end of an arc that a line is: the outside of a unit is its first line, negative.
fn end(first: u32, line: u32) -> i64
    ensures { result ≡ shown_line first line }
{
    if line == 0 {
        -i64::from(first)
    } else {
        i64::from(line)
    }
}

impl Arcs {
    ghost use Rattle.cov_arcs.specs.Told.{first_line};
    ghost use Rattle.cov_arcs.specs.Tracing.{at_first};

    /// Has no arc and no open frame. The table has the first line of each unit of each module,
    /// counted from 1: unit 0 is the module's body, and unit k its k-th `def`. A unit that it lacks
    /// begins in line 1.
    pub fn new(alloc: Global, firsts: Vec<Vec<u32>>) -> Result<Arcs, NoMemory>
        ensures { IfOk result (λ arcs. arcs ≡ at_first (map (λ lines. lines.items) firsts.items)) }
    {
        let sets = Sets::new(alloc, firsts.len())?;
        Ok(Arcs {
            firsts,
            frames: Frames::new(alloc),
            sets,
        })
    }

    /// The arcs of a module, in order of their first and then their second line, where the table
    /// has the module.
    pub fn arcs_of(&self, module: u32) -> Option<&BTreeSet<(i64, i64)>>
        ensures { MatchOption result (slice_get self.now.arcs «module» ≡ None) (λ arcs.
            slice_get self.now.arcs «module» ≡ Some arcs.now.keys) }
    {
        self.sets.of(module)
    }

    fn first_line(&self, code: CodeId) -> u32
        ensures { result ≡ first_line self.now.firsts code }
    {
        match self.firsts.get(code.module as usize) {
            Some(lines) => match lines.get(code.unit as usize) {
                Some(line) => *line,
                None => 1,
            },
            None => 1,
        }
    }
}

impl Tracer for Arcs {
    ghost use Rattle.cov_arcs.specs.Tracing.{Tracing, IsNext, next};

    ghost moves = { IsNext };

    ghost refused = { λ old _ new. new ≡ old };

    ghost Record = { Tracing };

    ghost recorded = { λ arcs. arcs };

    ghost kept = { λ _ _ _ same. same };

    fn event(&mut self, _alloc: Global, ev: &Event) -> Result<(), NoMemory>
        ensures moved { OnOk result (self.new ≡ next self.old ev.now) }
        ensures refused { OnErr result (self.new ≡ self.old) }
    {
        match *ev {
            Event::Call(code) => {
                let first = self.first_line(code);
                self.frames.push(Frame {
                    module: code.module,
                    first,
                    line: 0,
                })?;
            }
            Event::Line(line) => {
                if let Some(frame) = self.frames.innermost() {
                    self.sets.add(
                        frame.module,
                        (end(frame.first, frame.line), end(frame.first, line)),
                    )?;
                    self.frames.begin(line);
                }
            }
            Event::Throw(_) => {}
            Event::Return => {
                if let Some(frame) = self.frames.innermost() {
                    self.sets.add(
                        frame.module,
                        (end(frame.first, frame.line), end(frame.first, 0)),
                    )?;
                    self.frames.pop();
                }
            }
        }
        Ok(())
    }
}
