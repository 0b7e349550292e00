// Instructions that move operands.
ghost use Rattle.std.specs.Prelude.{◌≡◌, ◌<◌, IfOk};
ghost use Rattle.py_value.specs.View.{plain};
ghost use Rattle.py_code.specs.declared.instr.Instr.TheVariants.{Constant as Const, Pop, Copy, Sink, Roll};
ghost use Rattle.py_code.specs.Units.{constant_value};
ghost use Rattle.py_instructions.specs.View.{ActsAlone};

use crate::frame::State;
use crate::numbered::numbered;
use crate::operand::Operand;
use crate::turn::{Acted, Turn};
use py_code::{Constant, Unit};
use py_value::{NoMemory, Value};
use std::alloc::Global;

/// The value of a constant.
fn value_of_constant(constant: &Constant) -> Result<Value, NoMemory>
    ensures { IfOk result (λ v. plain v ≡ constant_value constant.now) }
{
    match constant {
        Constant::None => Ok(Value::None),
        Constant::Bool(b) => Ok(Value::Bool(*b)),
        Constant::Int(n) => Ok(Value::Int(*n)),
        Constant::Str(text) => Ok(Value::Str(text.copy()?)),
    }
}

impl State {
    pub fn constant(&mut self, unit: &Unit, n: u32) -> Acted
        requires { self.old.top.place < usize.MAX }
        ensures { IfOk result (ActsAlone unit.now (Const n) self.old self.new) }
    {
        match numbered(&unit.constants, n) {
            None => Ok(Turn::Stuck),
            Some(constant) => {
                let value = value_of_constant(constant)?;
                self.push(Operand::Value(value))
            }
        }
    }

    pub fn pop(&mut self, unit: &Unit) -> Turn
        requires { self.old.top.place < usize.MAX }
        ensures { ActsAlone unit.now Pop self.old self.new result }
    {
        match self.top.operands.pop() {
            None => Turn::Stuck,
            Some(x) => {
                drop(x);
                self.top.place += 1;
                Turn::Goes
            }
        }
    }

    pub fn copy(&mut self, alloc: Global, unit: &Unit, n: u32) -> Acted
        requires { self.old.top.place < usize.MAX }
        ensures { IfOk result (ActsAlone unit.now (Copy n) self.old self.new) }
    {
        match self.top.operands.operand(n as usize) {
            None => Ok(Turn::Stuck),
            Some(x) => {
                let copy = x.copy(alloc)?;
                self.push(copy)
            }
        }
    }

    pub fn sink(&mut self, unit: &Unit, n: u32) -> Acted
        requires { self.old.top.place < usize.MAX }
        ensures { IfOk result (ActsAlone unit.now (Sink n) self.old self.new) }
    {
        let Some(x) = self.top.operands.pop() else {
            return Ok(Turn::Stuck);
        };
        if !self.top.operands.sink(n as usize, x)? {
            return Ok(Turn::Stuck);
        }
        self.top.place += 1;
        Ok(Turn::Goes)
    }

    pub fn roll(&mut self, unit: &Unit, n: u32) -> Acted
        requires { self.old.top.place < usize.MAX }
        ensures { IfOk result (ActsAlone unit.now (Roll n) self.old self.new) }
    {
        match self.top.operands.take_operand(n as usize) {
            None => Ok(Turn::Stuck),
            Some(x) => self.push(x),
        }
    }
}
