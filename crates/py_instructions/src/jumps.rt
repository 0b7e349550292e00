// Jumps.
ghost use Rattle.std.specs.Prelude.{◌<◌, IfOk};
ghost use Rattle.py_code.specs.declared.instr.Instr.TheVariants.{Goto, IfFalse, IfTrue, And, Or, Link, Unless, Sequence};
ghost use Rattle.py_instructions.specs.View.{ActsIn, ActsAlone};

use crate::comparing::compared;
use crate::frame::State;
use crate::operand::Operand;
use crate::turn::{Acted, Turn};
use py_code::{Question, Unit};
use py_value::{Value, truth};
use py_world::{Store, sequence_of};
use std::alloc::Global;

impl State {
    pub fn goto(&mut self, unit: &Unit, to: u32) -> Turn
        ensures { ActsAlone unit.now (Goto to) self.old self.new result }
    {
        self.jump(to)
    }

    pub fn if_false(&mut self, unit: &Unit, to: u32, store: &Store) -> Turn
        requires { self.old.top.place < usize.MAX }
        ensures { ActsIn unit.now (IfFalse to) self.old store.now self.new store.now result }
    {
        match self.top.operands.take_truth(&store.heap) {
            None => Turn::Stuck,
            Some(true) => self.fall(),
            Some(false) => self.jump(to),
        }
    }

    pub fn if_true(&mut self, unit: &Unit, to: u32, store: &Store) -> Turn
        requires { self.old.top.place < usize.MAX }
        ensures { ActsIn unit.now (IfTrue to) self.old store.now self.new store.now result }
    {
        match self.top.operands.take_truth(&store.heap) {
            None => Turn::Stuck,
            Some(true) => self.jump(to),
            Some(false) => self.fall(),
        }
    }

    pub fn and(&mut self, unit: &Unit, to: u32, store: &Store) -> Acted
        requires { self.old.top.place < usize.MAX }
        ensures { IfOk result (ActsIn unit.now (And to) self.old store.now self.new store.now) }
    {
        let Some(x) = self.top.operands.pop() else {
            return Ok(Turn::Stuck);
        };
        let none = Value::None;
        let holds = truth(x.value_or(&none), &store.heap);
        drop(none);
        if holds {
            drop(x);
            Ok(self.fall())
        } else {
            self.top.operands.push(x)?;
            Ok(self.jump(to))
        }
    }

    pub fn or(&mut self, unit: &Unit, to: u32, store: &Store) -> Acted
        requires { self.old.top.place < usize.MAX }
        ensures { IfOk result (ActsIn unit.now (Or to) self.old store.now self.new store.now) }
    {
        let Some(x) = self.top.operands.pop() else {
            return Ok(Turn::Stuck);
        };
        let none = Value::None;
        let holds = truth(x.value_or(&none), &store.heap);
        drop(none);
        if holds {
            self.top.operands.push(x)?;
            Ok(self.jump(to))
        } else {
            drop(x);
            Ok(self.fall())
        }
    }

    pub fn link(
        &mut self,
        alloc: Global,
        unit: &Unit,
        question: Question,
        to: u32,
        store: &Store,
    ) -> Acted
        requires { self.old.top.place < usize.MAX }
        ensures { IfOk result
            (ActsIn unit.now (Link question to) self.old store.now self.new store.now) }
    {
        let Some((x, y)) = self.top.operands.take_two() else {
            return Ok(Turn::Stuck);
        };
        let left = x.into_value();
        let none = Value::None;
        let answer = compared(alloc, question, &left, y.value_or(&none), &store.heap);
        drop(none);
        drop(left);
        match answer? {
            Ok(true) => self.push(y),
            Ok(false) => {
                drop(y);
                self.top.operands.push(Operand::Value(Value::Bool(false)))?;
                Ok(self.jump(to))
            }
            Err(raised) => {
                drop(y);
                Ok(Turn::Throws(raised))
            }
        }
    }

    pub fn unless(&mut self, unit: &Unit, n: u32, to: u32, store: &Store) -> Turn
        requires { self.old.top.place < usize.MAX }
        ensures { ActsIn unit.now (Unless n to) self.old store.now self.new store.now result }
    {
        match self.top.operands.take_truth(&store.heap) {
            None => Turn::Stuck,
            Some(true) => self.fall(),
            Some(false) => {
                if self.top.operands.discard(n as usize) {
                    self.jump(to)
                } else {
                    Turn::Stuck
                }
            }
        }
    }

    pub fn sequence(
        &mut self,
        alloc: Global,
        unit: &Unit,
        count: u32,
        n: u32,
        to: u32,
        store: &Store,
    ) -> Acted
        requires { self.old.top.place < usize.MAX }
        ensures { IfOk result
            (ActsIn unit.now (Sequence count n to) self.old store.now self.new store.now) }
    {
        let Some(value) = self.top.operands.take_value() else {
            return Ok(Turn::Stuck);
        };
        match sequence_of(count as usize, &value, &store.heap) {
            Some(items) => {
                let spread = self.top.operands.spread_copies(alloc, items);
                drop(value);
                spread?;
                Ok(self.fall())
            }
            None => {
                drop(value);
                if self.top.operands.discard(n as usize) {
                    Ok(self.jump(to))
                } else {
                    Ok(Turn::Stuck)
                }
            }
        }
    }
}
