// A tracer that keeps the events of a run, and what they are written down as.
ghost use Rattle.std.specs.Prelude.{◌≡◌, List, [], ◌∷◌, ◌++◌};
ghost use Rattle.cov_event.specs.declared.event.Event.{Event};

use crate::writer::Writer;
use cov_event::{CodeId, Event, Tracer};
use py_builtins::kind_name;
use py_code::Programs;
use py_value::{ExcKind, NoMemory};
use std::alloc::{AllocError, Global};
use std::test::Fail;

/// Keeps the events that it is told, and refuses the one of this number, counted from 0.
#[derive(Drop)]
pub(crate) struct Log {
    events: Vec<Event>,
    refused: usize,
}

impl Tracer for Log {
    ghost moves = { λ old ev new. new.events.items ≡ old.events.items ++ ev ∷ [] };

    ghost refused = { λ old _ new. new.events.items ≡ old.events.items };

    ghost Record = { List Event };

    ghost recorded = { λ log. log.events.items };

    ghost kept = { λ _ _ _ same. same };

    fn event(&mut self, _alloc: Global, ev: &Event) -> Result<(), NoMemory> {
        if self.events.len() == self.refused {
            return Err(AllocError);
        }
        self.events.push(*ev)?;
        Ok(())
    }
}

impl Log {
    pub(crate) fn new(alloc: Global, refused: usize) -> Log {
        Log {
            events: Vec::new(alloc),
            refused,
        }
    }

    /// The events: `0.1(` begins a frame for unit 1 of module 0, a number is a line, `!KeyError` a
    /// throw, and `)` the end of the frame.
    pub(crate) fn written(&self, alloc: Global) -> Result<String, Fail> {
        let mut out = Writer::new(alloc);
        for event in &self.events {
            out.between(" ");
            match event {
                Event::Call(code) => put_code(&mut out, *code),
                Event::Line(line) => out.number(*line as i64),
                Event::Throw(kind) => put_kind(&mut out, *kind),
                Event::Return => out.put(")"),
            }
        }
        out.done()
    }

    /// The arcs, in order: from the kept line of a frame to the line that begins, and at last to
    /// the outside of the frame's unit, which is its first line with a minus.
    pub(crate) fn arcs(&self, alloc: Global, programs: &Programs) -> Result<String, Fail> {
        let mut arcs: Vec<(i64, i64)> = Vec::new(alloc);
        let mut frames: Vec<(i64, i64)> = Vec::new(alloc);
        for event in &self.events {
            match event {
                Event::Call(code) => {
                    let outside = outside_of(programs, *code);
                    frames.push((outside, outside))?;
                }
                Event::Line(line) => {
                    if let Some(frame) = frames.last_mut() {
                        arcs.push((frame.1, *line as i64))?;
                        frame.1 = *line as i64;
                    }
                }
                Event::Throw(_) => {}
                Event::Return => {
                    if let Some(frame) = frames.pop() {
                        arcs.push((frame.1, frame.0))?;
                    }
                }
            }
        }
        arcs.sort()?;
        arcs.dedup();
        written_arcs(alloc, &arcs)
    }
}

fn put_code(out: &mut Writer, code: CodeId) {
    out.number(code.module as i64);
    out.put(".");
    out.number(code.unit as i64);
    out.put("(");
}

fn put_kind(out: &mut Writer, kind: ExcKind) {
    out.put("!");
    out.put(kind_name(kind));
}

fn written_arcs(alloc: Global, arcs: &[(i64, i64)]) -> Result<String, Fail> {
    let mut out = Writer::new(alloc);
    for arc in arcs {
        out.between("; ");
        out.number(arc.0);
        out.put(" ");
        out.number(arc.1);
    }
    out.done()
}

/// The outside of a unit.
fn outside_of(programs: &Programs, code: CodeId) -> i64 {
    if let Some(program) = programs.modules.get(code.module as usize) {
        if let Some(unit) = program.code.units().get(code.unit as usize) {
            return -(unit.first as i64);
        }
    }
    0
}
