// Operators, items and attributes.
ghost use Rattle.std.specs.Prelude.{◌<◌, IfOk};
ghost use Rattle.py_code.specs.declared.instr.Instr.TheVariants.{Not, Binary, InPlace, Compare, Index, Slice, StoreIndex, Unpack};
ghost use Rattle.py_instructions.specs.View.{ActsIn};

use crate::comparing::compared;
use crate::frame::State;
use crate::making::sliced;
use crate::operand::Operand;
use crate::turn::{Acted, Turn};
use py_code::{Bounds, Question, Unit};
use py_value::{BinOp, Value, binary, in_place, index, store as store_value};
use py_world::{Store, sequence_of, unpacked};
use std::alloc::Global;

impl State {
    pub fn not(&mut self, unit: &Unit, store: &Store) -> Acted
        requires { self.old.top.place < usize.MAX }
        ensures { IfOk result (ActsIn unit.now Not self.old store.now self.new store.now) }
    {
        match self.top.operands.take_truth(&store.heap) {
            None => Ok(Turn::Stuck),
            Some(true) => self.push(Operand::Value(Value::Bool(false))),
            Some(false) => self.push(Operand::Value(Value::Bool(true))),
        }
    }

    pub fn binary(&mut self, alloc: Global, unit: &Unit, op: BinOp, store: &mut Store) -> Acted
        requires { self.old.top.place < usize.MAX }
        ensures { IfOk result (ActsIn unit.now (Binary op) self.old store.old self.new store.new) }
    {
        let Some((left, right)) = self.top.operands.take_two_values() else {
            return Ok(Turn::Stuck);
        };
        let answer = binary(alloc, op, &left, &right, &mut store.heap);
        drop(left);
        drop(right);
        self.push_answer(answer?)
    }

    pub fn in_place(&mut self, alloc: Global, unit: &Unit, op: BinOp, store: &mut Store) -> Acted
        requires { self.old.top.place < usize.MAX }
        ensures { IfOk result (ActsIn unit.now (InPlace op) self.old store.old self.new store.new) }
    {
        let Some((left, right)) = self.top.operands.take_two_values() else {
            return Ok(Turn::Stuck);
        };
        let answer = in_place(alloc, op, &left, &right, &mut store.heap);
        drop(left);
        drop(right);
        self.push_answer(answer?)
    }

    pub fn compare(
        &mut self,
        alloc: Global,
        unit: &Unit,
        question: Question,
        store: &Store,
    ) -> Acted
        requires { self.old.top.place < usize.MAX }
        ensures { IfOk result
            (ActsIn unit.now (Compare question) self.old store.now self.new store.now) }
    {
        let Some((left, right)) = self.top.operands.take_two_values() else {
            return Ok(Turn::Stuck);
        };
        let answer = compared(alloc, question, &left, &right, &store.heap);
        drop(left);
        drop(right);
        match answer? {
            Ok(holds) => self.push(Operand::Value(Value::Bool(holds))),
            Err(raised) => Ok(Turn::Throws(raised)),
        }
    }

    pub fn index(&mut self, alloc: Global, unit: &Unit, store: &Store) -> Acted
        requires { self.old.top.place < usize.MAX }
        ensures { IfOk result (ActsIn unit.now Index self.old store.now self.new store.now) }
    {
        let Some((of, at)) = self.top.operands.take_two_values() else {
            return Ok(Turn::Stuck);
        };
        let answer = index(alloc, &of, &at, &store.heap);
        drop(of);
        drop(at);
        self.push_answer(answer?)
    }

    pub fn store_index(&mut self, alloc: Global, unit: &Unit, store: &mut Store) -> Acted
        requires { self.old.top.place < usize.MAX }
        ensures { IfOk result (ActsIn unit.now StoreIndex self.old store.old self.new store.new) }
    {
        let Some((of, at)) = self.top.operands.take_two_values() else {
            return Ok(Turn::Stuck);
        };
        let Some(value) = self.top.operands.take_value() else {
            return Ok(Turn::Stuck);
        };
        let answer = store_value(alloc, &of, &at, value, &mut store.heap);
        drop(of);
        drop(at);
        match answer? {
            Ok(()) => Ok(self.fall()),
            Err(raised) => Ok(Turn::Throws(raised)),
        }
    }

    pub fn unpack(&mut self, alloc: Global, unit: &Unit, n: u32, store: &Store) -> Acted
        requires { self.old.top.place < usize.MAX }
        ensures { IfOk result (ActsIn unit.now (Unpack n) self.old store.now self.new store.now) }
    {
        let Some(value) = self.top.operands.take_value() else {
            return Ok(Turn::Stuck);
        };
        if let Some(items) = sequence_of(n as usize, &value, &store.heap) {
            let spread = self.top.operands.spread_copies(alloc, items);
            drop(value);
            spread?;
            return Ok(self.fall());
        }
        let answer = unpacked(alloc, n as usize, &value, &store.heap);
        drop(value);
        match answer? {
            Ok(items) => {
                self.top.operands.spread(items)?;
                Ok(self.fall())
            }
            Err(raised) => Ok(Turn::Throws(raised)),
        }
    }

    pub fn slice(&mut self, alloc: Global, unit: &Unit, bounds: Bounds, store: &mut Store) -> Acted
        requires { self.old.top.place < usize.MAX }
        ensures { IfOk result
            (ActsIn unit.now (Slice bounds) self.old store.old self.new store.new) }
    {
        let Some((of, from, to)) = self.top.operands.take_sliced(bounds) else {
            return Ok(Turn::Stuck);
        };
        let answer = sliced(alloc, &of, &from, &to, &mut store.heap);
        drop(of);
        drop(from);
        drop(to);
        self.push_answer(answer?)
    }
}
