// Texts, tuples, lists and dicts.
ghost use Rattle.std.specs.Prelude.{◌<◌, IfOk};
ghost use Rattle.py_code.specs.declared.instr.Instr.TheVariants.{Text as TextOf, Extend, Tuple, List as MakeList, Dict, AddPair};
ghost use Rattle.py_instructions.specs.View.{ActsIn, ActsAlone};

use crate::frame::State;
use crate::making::{into_text, new_list, new_tuple};
use crate::operand::Operand;
use crate::turn::{Acted, Turn};
use py_builtins::str_of;
use py_code::Unit;
use py_value::{BinOp, Value, store as store_value, update};
use py_world::Store;
use std::alloc::Global;

impl State {
    pub fn text(&mut self, alloc: Global, unit: &Unit, store: &Store) -> Acted
        requires { self.old.top.place < usize.MAX }
        ensures { IfOk result (ActsIn unit.now TextOf self.old store.now self.new store.now) }
    {
        let Some(value) = self.top.operands.take_value() else {
            return Ok(Turn::Stuck);
        };
        let answer = str_of(alloc, &value, &store.heap);
        drop(value);
        match answer? {
            Ok(text) => self.push(Operand::Value(Value::Str(text))),
            Err(raised) => Ok(Turn::Throws(raised)),
        }
    }

    pub fn extend(&mut self, alloc: Global, unit: &Unit, store: &mut Store) -> Acted
        requires { self.old.top.place < usize.MAX }
        ensures { IfOk result (ActsIn unit.now Extend self.old store.old self.new store.new) }
    {
        let Some((left, right)) = self.top.operands.take_two_values() else {
            return Ok(Turn::Stuck);
        };
        let mut text = Value::Str(into_text(alloc, left)?);
        let more = Value::Str(into_text(alloc, right)?);
        let answer = update(alloc, BinOp::Add, &mut text, &more, &mut store.heap);
        drop(more);
        match answer? {
            Ok(()) => self.push(Operand::Value(text)),
            Err(raised) => {
                drop(text);
                Ok(Turn::Throws(raised))
            }
        }
    }

    pub fn tuple(&mut self, alloc: Global, unit: &Unit, n: u32) -> Acted
        requires { self.old.top.place < usize.MAX }
        ensures { IfOk result (ActsAlone unit.now (Tuple n) self.old self.new) }
    {
        let list = Vec::new(alloc);
        let Some(values) = self.top.operands.take_values(list, n as usize)? else {
            return Ok(Turn::Stuck);
        };
        let answer = new_tuple(alloc, values)?;
        self.push_answer(answer)
    }

    pub fn list(&mut self, alloc: Global, unit: &Unit, n: u32, store: &mut Store) -> Acted
        requires { self.old.top.place < usize.MAX }
        ensures { IfOk result (ActsIn unit.now (MakeList n) self.old store.old self.new store.new) }
    {
        let list = Vec::new(alloc);
        let Some(values) = self.top.operands.take_values(list, n as usize)? else {
            return Ok(Turn::Stuck);
        };
        let answer = new_list(alloc, values, &mut store.heap)?;
        self.push_answer(answer)
    }

    pub fn dict(&mut self, unit: &Unit, store: &mut Store) -> Acted
        requires { self.old.top.place < usize.MAX }
        ensures { IfOk result (ActsIn unit.now Dict self.old store.old self.new store.new) }
    {
        let made = store.heap.make_dict()?;
        self.push(Operand::Value(Value::Dict(made)))
    }

    pub fn add_pair(&mut self, alloc: Global, unit: &Unit, store: &mut Store) -> Acted
        requires { self.old.top.place < usize.MAX }
        ensures { IfOk result (ActsIn unit.now AddPair self.old store.old self.new store.new) }
    {
        let Some((key, value)) = self.top.operands.take_two_values() else {
            return Ok(Turn::Stuck);
        };
        let Some(d) = self.top.operands.pop() else {
            return Ok(Turn::Stuck);
        };
        let none = Value::None;
        let answer = store_value(alloc, d.value_or(&none), &key, value, &mut store.heap);
        drop(none);
        drop(key);
        match answer? {
            Ok(()) => self.push(d),
            Err(raised) => {
                drop(d);
                Ok(Turn::Throws(raised))
            }
        }
    }
}
