// The next turn: instructions that are done at once, one after another, and the one after them.
ghost use Rattle.std.specs.Prelude.{◌<◌, ◌≤◌, [], length, IfOk};
ghost use Rattle.py_code.specs.Loaded.{modules_of, most_numbered};
ghost use Rattle.py_instructions.specs.AtOnce.{IsNextTurn};
ghost use Rattle.py_instructions.specs.Carried.{GoneOn};

use crate::frame::State;
use crate::turn::Turn;
use py_code::{Instr, Programs, Unit};
use py_value::NoMemory;
use py_world::{Store, unit_in};
use std::alloc::Global;

/// The most instructions of one call, so that it ends where jumps lead in a circle.
const MOST_AT_ONCE: u32 = 64;

impl State {
    /// Does some of the next instructions at once, or none, which tell nothing and take no step. No
    /// clause says how many. Then does the next one as far as the machine does it alone.
    pub fn next_turn(
        &mut self,
        alloc: Global,
        store: &mut Store,
        programs: &Programs,
    ) -> Result<Turn, NoMemory>
        requires { length (modules_of programs.now) ≤ most_numbered }
        ensures { IfOk result (λ t. IsNextTurn (modules_of programs.now) self.old store.old t
            self.new store.new) }
    {
        let Some(unit) = unit_in(programs, self.top.code) else {
            return self.decide(alloc, store, programs);
        };
        'ahead: for _ in 0..MOST_AT_ONCE {
            if self.top.place >= unit.instrs.len() {
                break;
            }
            let instr = unit.instrs[self.top.place];
            if let Instr::Mark(n) = instr {
                return Ok(self.mark(unit, n));
            }
            if let Instr::Again(n) = instr {
                return Ok(self.again(unit, n));
            }
            if !self.advance(unit, store) {
                return self.act(alloc, instr, unit, store, programs);
            }
        }
        self.decide(alloc, store, programs)
    }

    /// Does the next instruction at once, or several of them, or does nothing. It says which.
    fn advance(&mut self, unit: &Unit, store: &mut Store) -> bool
        requires { self.old.top.place < length unit.now.instrs.items }
        ensures { GoneOn result unit.now self.old.top.place [] self.old store.old self.new
            store.new }
    {
        if let Some(number) = self.number_at(self.top.place, unit, store) {
            return self.go_on_with(number, unit, store);
        }
        let instr = unit.instrs[self.top.place];
        self.do_at_once(instr, unit, store)
    }
}
