// Ways out of suites.
ghost use Rattle.std.specs.Prelude.{◌≡◌, ◌+◌, ◌<◌, List, IfOk};
ghost use Rattle.py_code.specs.declared.instr.Instr.TheVariants.{Leave, Ending as Ends, Breaking, Continuing, Returning, Settle, Release};
ghost use Rattle.py_code.specs.Machine.{jumps, puts_way, resumes};
ghost use Rattle.py_code.specs.Slots.{by_slots};
ghost use Rattle.py_code.specs.Units.{Module, plain_unit};
ghost use Rattle.py_world.specs.declared.store.Store.{Store as Kept};
ghost use Rattle.py_instructions.specs.Operands.{plain_way};
ghost use Rattle.py_instructions.specs.View.{Does, DoesAlone, ActsAlone};

use crate::frame::State;
use crate::operand::{Operand, Way};
use crate::turn::{Acted, Turn};
use py_code::Unit;
use std::alloc::AllocError;

impl State {
    pub fn leave(&mut self, unit: &Unit, n: u32, to: u32) -> Turn
        ensures { ActsAlone unit.now (Leave n to) self.old self.new result }
    {
        if self.top.operands.discard(n as usize) {
            self.jump(to)
        } else {
            Turn::Stuck
        }
    }

    pub fn ending(&mut self, unit: &Unit) -> Acted
        requires { self.old.top.place < usize.MAX }
        ensures { IfOk result (ActsAlone unit.now Ends self.old self.new) }
    {
        self.push(Operand::Way(Way::On))
    }

    pub fn breaking(&mut self, unit: &Unit, n: u32, to: u32) -> Acted
        ensures { IfOk result (ActsAlone unit.now (Breaking n to) self.old self.new) }
    {
        self.leave_by(n, Way::Break, to)
    }

    pub fn continuing(&mut self, unit: &Unit, n: u32, to: u32) -> Acted
        ensures { IfOk result (ActsAlone unit.now (Continuing n to) self.old self.new) }
    {
        self.leave_by(n, Way::Continue, to)
    }

    pub fn returning(&mut self, unit: &Unit, n: u32, to: u32) -> Acted
        ensures { IfOk result (ActsAlone unit.now (Returning n to) self.old self.new) }
    {
        let Some(value) = self.top.operands.take_value() else {
            return Ok(Turn::Stuck);
        };
        self.leave_by(n, Way::Return(value), to)
    }

    pub fn settle(&mut self, unit: &Unit) -> Acted
        ensures { IfOk result (ActsAlone unit.now Settle self.old self.new) }
    {
        let Some(x) = self.top.operands.pop() else {
            return Ok(Turn::Stuck);
        };
        let way = x.into_way();
        way.resume(self, true)
    }

    pub fn release(&mut self, unit: &Unit) -> Acted
        ensures { IfOk result (ActsAlone unit.now Release self.old self.new) }
    {
        let Some(x) = self.top.operands.pop() else {
            return Ok(Turn::Stuck);
        };
        let way = x.into_way();
        way.resume(self, false)
    }

    /// Takes so many operands away, and goes on with a way out on top.
    fn leave_by(&mut self, n: u32, way: Way, to: u32) -> Acted
        ensures { IfOk result (λ t. (ms : List Module) (s : Kept) → Does ms
            (puts_way (by_slots ms) ms n (plain_way way) to) self.old s self.new s t) }
    {
        if !self.top.operands.discard(n as usize) {
            drop(way);
            return Ok(Turn::Stuck);
        }
        self.top.operands.push(Operand::Way(way))?;
        Ok(self.jump(to))
    }

    /// Goes so many places ahead.
    fn go_ahead(&mut self, n: usize) -> Acted
        ensures { IfOk result
            (DoesAlone (jumps (n + self.old.top.place)) self.old self.new) }
    {
        match self.top.place.checked_add(n) {
            None => Err(AllocError),
            Some(place) => {
                self.top.place = place;
                Ok(Turn::Goes)
            }
        }
    }
}

impl Way {
    /// Goes on in a way out; an exception is on its way.
    fn resume(self, m: &mut State, is_settled: bool) -> Acted
        ensures { IfOk result (λ t. (ms : List Module) (s : Kept) → Does ms
            (resumes (by_slots ms) ms is_settled (plain_way self)) m.old s m.new s t) }
    {
        match self {
            Way::On => m.go_ahead(4),
            Way::Break => m.go_ahead(1),
            Way::Continue => m.go_ahead(2),
            Way::Return(value) => {
                m.top.operands.push(Operand::Value(value))?;
                m.go_ahead(3)
            }
            Way::Raise(raised, is_thrown) => {
                if is_settled && is_thrown {
                    Ok(Turn::Throws(raised))
                } else {
                    Ok(Turn::Escapes(raised, is_thrown))
                }
            }
        }
    }
}
