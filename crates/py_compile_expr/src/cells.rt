// Cells, and a list of them that grows.

ghost use Rattle.std.specs.Prelude.{◌≡◌, ◌+◌, [], ◌++◌, map, IfOk, OnOk};
ghost use Rattle.py_compile_expr.specs.Cells.{put};
ghost use Rattle.py_compile_expr.specs.CellView.{plain_op, plain_guard, plain_cell};

use py_code::{Constant, Instr};
use py_text::{NoMemory, Text};
use std::alloc::{AllocError, Global};
use std::marker::Model;

/// An instruction with names, constants and lines in place of their numbers.
pub enum Op {
    Constant(Constant),
    Load(Text),
    Store(Text),
    Unset(Text),
    Attribute(Text),
    Method(Text),
    Import(Text),
    Module(Text),
    /// A name of a module: the module's name first.
    Take(Text, Text),
    Mark(u32),
    Again(u32),
    /// An instruction that knows neither names nor lines.
    Plain(Instr),
}

// Written out, and not derived, so that letting an instruction go is one call wherever that
// happens.
impl Drop for Op {
    fn drop(self) {
        match self {
            Op::Constant(constant) => drop(constant),
            Op::Load(name) => drop(name),
            Op::Store(name) => drop(name),
            Op::Unset(name) => drop(name),
            Op::Attribute(name) => drop(name),
            Op::Method(name) => drop(name),
            Op::Import(name) => drop(name),
            Op::Module(name) => drop(name),
            Op::Take(module, name) => {
                drop(module);
                drop(name)
            }
            Op::Mark(_) => (),
            Op::Again(_) => (),
            Op::Plain(_) => (),
        }
    }
}

/// Where an exception goes on, and with how many operands.
#[derive(Clone, Copy)]
pub struct Guard {
    pub target: u32,
    pub depth: u32,
}

/// A symbolic instruction with the handler of its place.
#[derive(Drop)]
pub struct Cell {
    pub op: Op,
    pub guard: Option<Guard>,
}

/// The cells of a unit so far, seen as their list.
#[derive(Drop)]
pub struct Builder {
    cells: Vec<Cell>,
}

impl Model for Builder {
    ghost use Rattle.std.specs.Prelude.{List, map};
    ghost use Rattle.py_compile_expr.specs.Cells.{Cell as PlainCell};
    ghost use Rattle.py_compile_expr.specs.CellView.{plain_cell};

    ghost Value = { List PlainCell };

    ghost view = { λ b. map plain_cell b.cells.items };
}

impl Builder {
    pub fn new(alloc: Global) -> Builder
        ensures { result ≡ [] }
    {
        Builder {
            cells: Vec::new(alloc),
        }
    }

    /// The allocator of the cells.
    pub fn alloc(&self) -> Global {
        *self.cells.allocator()
    }

    /// The cells so far.
    pub fn cells(&self) -> &[Cell]
        ensures { map plain_cell result.now ≡ self.now }
    {
        &self.cells
    }

    /// Adds an instruction at a place, with the handler that holds there. Answers the place after
    /// it.
    pub fn put(&mut self, guard: Option<Guard>, at: u32, op: Op) -> Result<u32, NoMemory>
        ensures cells { OnOk result (self.new
            ≡ self.old ++ put (plain_guard guard) (plain_op op) []) }
        ensures place { IfOk result (λ n. n ≡ at + 1) }
    {
        self.cells.push(Cell { op, guard })?;
        sum(at, 1)
    }
}

/// A place so many after another one. A unit has room for no more places than a `u32` counts.
pub fn sum(at: u32, more: u32) -> Result<u32, NoMemory>
    ensures { IfOk result (λ n. n ≡ at + more) }
{
    match at.checked_add(more) {
        Some(n) => Ok(n),
        None => Err(AllocError),
    }
}
