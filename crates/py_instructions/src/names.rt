// Names: slots, and globals.
ghost use Rattle.std.specs.Prelude.{◌<◌, IfOk};
ghost use Rattle.py_code.specs.declared.instr.Instr.TheVariants.{LoadLocal, StoreLocal, UnsetLocal, LoadGlobal, StoreGlobal, UnsetGlobal};
ghost use Rattle.py_instructions.specs.View.{ActsIn, ActsAlone};

use crate::frame::State;
use crate::numbered::numbered;
use crate::operand::Operand;
use crate::turn::{Acted, Turn};
use py_code::Unit;
use py_world::{Store, local_unset, name_unknown};
use std::alloc::Global;

impl State {
    pub fn load_local(&mut self, alloc: Global, unit: &Unit, n: u32) -> Acted
        requires { self.old.top.place < usize.MAX }
        ensures { IfOk result (ActsAlone unit.now (LoadLocal n) self.old self.new) }
    {
        let Some(name) = numbered(&unit.locals, n) else {
            return Ok(Turn::Stuck);
        };
        match self.top.slots.look(n as usize) {
            None => Ok(Turn::Throws(local_unset(alloc, name)?)),
            Some(value) => {
                let copy = value.copy(alloc)?;
                self.push(Operand::Value(copy))
            }
        }
    }

    pub fn store_local(&mut self, unit: &Unit, n: u32) -> Turn
        requires { self.old.top.place < usize.MAX }
        ensures { ActsAlone unit.now (StoreLocal n) self.old self.new result }
    {
        let Some(_) = numbered(&unit.locals, n) else {
            return Turn::Stuck;
        };
        let Some(value) = self.top.operands.take_value() else {
            return Turn::Stuck;
        };
        self.top.slots.set(n as usize, value);
        self.fall()
    }

    pub fn unset_local(&mut self, unit: &Unit, n: u32) -> Turn
        requires { self.old.top.place < usize.MAX }
        ensures { ActsAlone unit.now (UnsetLocal n) self.old self.new result }
    {
        let Some(_) = numbered(&unit.locals, n) else {
            return Turn::Stuck;
        };
        self.top.slots.unset(n as usize);
        self.fall()
    }

    pub fn load_global(&mut self, alloc: Global, unit: &Unit, n: u32, store: &Store) -> Acted
        requires { self.old.top.place < usize.MAX }
        ensures { IfOk result
            (ActsIn unit.now (LoadGlobal n) self.old store.now self.new store.now) }
    {
        let Some(name) = numbered(&unit.names, n) else {
            return Ok(Turn::Stuck);
        };
        match store.global_at(self.top.code, n, name) {
            Some(value) => {
                let copy = value.copy(alloc)?;
                self.push(Operand::Value(copy))
            }
            None => match store.predefined_at(self.top.code, n, name) {
                None => Ok(Turn::Throws(name_unknown(alloc, name)?)),
                Some(value) => self.push(Operand::Value(value)),
            },
        }
    }

    pub fn store_global(&mut self, alloc: Global, unit: &Unit, n: u32, store: &mut Store) -> Acted
        requires { self.old.top.place < usize.MAX }
        ensures { IfOk result
            (ActsIn unit.now (StoreGlobal n) self.old store.old self.new store.new) }
    {
        let Some(name) = numbered(&unit.names, n) else {
            return Ok(Turn::Stuck);
        };
        let Some(value) = self.top.operands.take_value() else {
            return Ok(Turn::Stuck);
        };
        store.set_global(alloc, self.top.code, n, name, value)?;
        Ok(self.fall())
    }

    pub fn unset_global(&mut self, alloc: Global, unit: &Unit, n: u32, store: &mut Store) -> Acted
        requires { self.old.top.place < usize.MAX }
        ensures { IfOk result
            (ActsIn unit.now (UnsetGlobal n) self.old store.old self.new store.new) }
    {
        let Some(name) = numbered(&unit.names, n) else {
            return Ok(Turn::Stuck);
        };
        store.unset_global(alloc, self.top.code, n, name)?;
        Ok(self.fall())
    }
}
