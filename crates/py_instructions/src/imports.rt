// Imports, and names of modules.
ghost use Rattle.std.specs.Prelude.{◌<◌, ◌≤◌, length, IfOk};
ghost use Rattle.py_code.specs.declared.instr.Instr.TheVariants.{Attribute, Method as MethodOf, Import, Module as LoadModule, Take};
ghost use Rattle.py_code.specs.Loaded.{modules_of, most_numbered};
ghost use Rattle.py_code.specs.Units.{plain_unit};
ghost use Rattle.py_world.specs.declared.store.Store.{Store as Kept};
ghost use Rattle.py_instructions.specs.View.{Acts, ActsIn};

use crate::frame::State;
use crate::numbered::numbered;
use crate::operand::Operand;
use crate::turn::{Acted, Turn};
use cov_event::CodeId;
use py_code::{Programs, Unit};
use py_value::Value;
use py_world::{Store, attribute, callee_of, imported, imported_number, is_sys, no_module, taken};
use std::alloc::Global;

impl State {
    pub fn attribute(&mut self, alloc: Global, unit: &Unit, n: u32, store: &Store) -> Acted
        requires { self.old.top.place < usize.MAX }
        ensures { IfOk result
            (ActsIn unit.now (Attribute n) self.old store.now self.new store.now) }
    {
        let Some(name) = numbered(&unit.names, n) else {
            return Ok(Turn::Stuck);
        };
        let Some(value) = self.top.operands.take_value() else {
            return Ok(Turn::Stuck);
        };
        let answer = attribute(alloc, &value, name, store);
        drop(value);
        self.push_answer(answer?)
    }

    pub fn method(&mut self, alloc: Global, unit: &Unit, n: u32, store: &Store) -> Acted
        requires { self.old.top.place < usize.MAX }
        ensures { IfOk result (ActsIn unit.now (MethodOf n) self.old store.now self.new store.now) }
    {
        let Some(name) = numbered(&unit.names, n) else {
            return Ok(Turn::Stuck);
        };
        let Some(value) = self.top.operands.take_value() else {
            return Ok(Turn::Stuck);
        };
        match callee_of(alloc, value, name, store)? {
            Ok(callee) => self.push(Operand::of_callee(callee)),
            Err(raised) => Ok(Turn::Throws(raised)),
        }
    }

    pub fn take(&mut self, alloc: Global, unit: &Unit, m: u32, n: u32, store: &Store) -> Acted
        requires { self.old.top.place < usize.MAX }
        ensures { IfOk result (ActsIn unit.now (Take m n) self.old store.now self.new store.now) }
    {
        let Some(from) = numbered(&unit.names, m) else {
            return Ok(Turn::Stuck);
        };
        let Some(name) = numbered(&unit.names, n) else {
            return Ok(Turn::Stuck);
        };
        let Some(x) = self.top.operands.operand(0) else {
            return Ok(Turn::Stuck);
        };
        let none = Value::None;
        let answer = taken(alloc, from, x.value_or(&none), name, store);
        drop(none);
        self.push_answer(answer?)
    }

    pub fn load_module(&mut self, alloc: Global, unit: &Unit, n: u32, programs: &Programs) -> Acted
        requires room { self.old.top.place < usize.MAX }
        requires few { length (modules_of programs.now) ≤ most_numbered }
        ensures { IfOk result (λ t.
            (s : Kept)
            → Acts (modules_of programs.now) (plain_unit unit.now) (LoadModule n) self.old s
            self.new s t) }
    {
        let Some(name) = numbered(&unit.names, n) else {
            return Ok(Turn::Stuck);
        };
        let answer = imported(alloc, name, programs)?;
        self.push_answer(answer)
    }

    pub fn import(
        &mut self,
        alloc: Global,
        unit: &Unit,
        n: u32,
        store: &mut Store,
        programs: &Programs,
    ) -> Acted
        requires room { self.old.top.place < usize.MAX }
        requires few { length (modules_of programs.now) ≤ most_numbered }
        ensures { IfOk result (λ t.
            Acts (modules_of programs.now) (plain_unit unit.now) (Import n) self.old store.old
            self.new store.new t) }
    {
        let Some(name) = numbered(&unit.names, n) else {
            return Ok(Turn::Stuck);
        };
        if is_sys(name) {
            return self.push(Operand::Value(Value::None));
        }
        match imported_number(name, programs) {
            None => Ok(Turn::Throws(no_module(alloc, name)?)),
            Some(module) => {
                if store.is_begun(module) {
                    self.push(Operand::Value(Value::None))
                } else {
                    let code = CodeId { module, unit: 0 };
                    self.enter(alloc, code, Vec::new(alloc), store, programs)
                }
            }
        }
    }
}
