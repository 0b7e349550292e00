// Loops.
ghost use Rattle.std.specs.Prelude.{◌<◌, IfOk};
ghost use Rattle.py_code.specs.declared.instr.Instr.TheVariants.{Walk, Next as NextItem};
ghost use Rattle.py_instructions.specs.View.{ActsIn};

use crate::frame::State;
use crate::operand::{Operand, Walk as Walked};
use crate::turn::{Acted, Turn};
use py_code::Unit;
use py_world::{Store, item_of, walk_length};
use std::alloc::{AllocError, Global};

impl State {
    pub fn walk(&mut self, alloc: Global, unit: &Unit, store: &Store) -> Acted
        requires { self.old.top.place < usize.MAX }
        ensures { IfOk result (ActsIn unit.now Walk self.old store.now self.new store.now) }
    {
        let Some(value) = self.top.operands.take_value() else {
            return Ok(Turn::Stuck);
        };
        match walk_length(alloc, &value, &store.heap)? {
            Ok(count) => self.push(Operand::Walk(value, count, 0)),
            Err(raised) => {
                drop(value);
                Ok(Turn::Throws(raised))
            }
        }
    }

    pub fn next(&mut self, alloc: Global, unit: &Unit, to: u32, store: &Store) -> Acted
        requires { self.old.top.place < usize.MAX }
        ensures { IfOk result
            (ActsIn unit.now (NextItem to) self.old store.now self.new store.now) }
    {
        let Some(x) = self.top.operands.pop() else {
            return Ok(Turn::Stuck);
        };
        let Walked {
            value,
            count,
            place,
        } = x.into_walk();
        match item_of(alloc, &value, count, place, &store.heap)? {
            Ok(None) => {
                drop(value);
                Ok(self.jump(to))
            }
            Ok(Some(item)) => match place.checked_add(1) {
                None => {
                    drop(value);
                    drop(item);
                    Err(AllocError)
                }
                Some(next) => {
                    self.top.operands.push(Operand::Walk(value, count, next))?;
                    self.push(Operand::Value(item))
                }
            },
            Err(raised) => {
                drop(value);
                Ok(Turn::Throws(raised))
            }
        }
    }
}
