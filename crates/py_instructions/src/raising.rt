// Exceptions that instructions raise.
ghost use Rattle.std.specs.Prelude.{◌≡◌, ◌<◌, IfOk};
ghost use Rattle.py_value.specs.Plain.{packed};
ghost use Rattle.py_value.specs.View.{plain, plains, plain_answer};
ghost use Rattle.py_builtins.specs.Catching.{catches, some_catches, assertion_error};
ghost use Rattle.py_code.specs.declared.instr.Instr.TheVariants.{Raise, Reraise, Assertion, AssertionWith, Catches, Caught, Uncaught};
ghost use Rattle.py_instructions.specs.View.{ActsAlone};

use crate::frame::State;
use crate::operand::Operand;
use crate::turn::{Acted, Turn};
use py_code::Unit;
use py_value::{Argument, Cause, ExcKind, NoMemory, Raised, Value};
use std::alloc::Global;

impl State {
    pub fn raise(&mut self, alloc: Global, unit: &Unit) -> Acted
        ensures { IfOk result (ActsAlone unit.now Raise self.old self.new) }
    {
        let Some(value) = self.top.operands.take_value() else {
            return Ok(Turn::Stuck);
        };
        match &value {
            Value::Kind(kind) => Ok(Turn::Escapes(
                Raised {
                    kind: *kind,
                    arg: Argument::none(),
                },
                false,
            )),
            Value::Exc(kind, arg) => {
                let arg = arg.copy()?;
                Ok(Turn::Escapes(Raised { kind: *kind, arg }, false))
            }
            _ => Ok(Turn::Throws(Raised::of(alloc, Cause::NotException)?)),
        }
    }

    pub fn reraise(&mut self, unit: &Unit, n: u32) -> Acted
        ensures { IfOk result (ActsAlone unit.now (Reraise n) self.old self.new) }
    {
        match self.top.operands.operand(n as usize) {
            None => Ok(Turn::Stuck),
            Some(x) => Ok(Turn::Escapes(x.exception()?, false)),
        }
    }

    pub fn assertion(&mut self, unit: &Unit) -> Turn
        ensures { ActsAlone unit.now Assertion self.old self.new result }
    {
        Turn::Throws(Raised {
            kind: ExcKind::AssertionError,
            arg: Argument::none(),
        })
    }

    pub fn assertion_with(&mut self, alloc: Global, unit: &Unit) -> Acted
        ensures { IfOk result (ActsAlone unit.now AssertionWith self.old self.new) }
    {
        let Some(value) = self.top.operands.take_value() else {
            return Ok(Turn::Stuck);
        };
        if value.may_nest() {
            let arg = Argument::of(alloc, value)?;
            Ok(Turn::Throws(Raised {
                kind: ExcKind::AssertionError,
                arg,
            }))
        } else {
            drop(value);
            Ok(Turn::Throws(Raised::of(alloc, Cause::TooDeep)?))
        }
    }

    pub fn catches(&mut self, alloc: Global, unit: &Unit) -> Acted
        requires { self.old.top.place < usize.MAX }
        ensures { IfOk result (ActsAlone unit.now Catches self.old self.new) }
    {
        let Some((w, x)) = self.top.operands.take_two() else {
            return Ok(Turn::Stuck);
        };
        let value = x.into_value();
        let kind = w.kind();
        self.top.operands.push(w)?;
        let answer = catches(alloc, &value, kind);
        drop(value);
        match answer? {
            Ok(holds) => self.push(Operand::Value(Value::Bool(holds))),
            Err(raised) => Ok(Turn::Throws(raised)),
        }
    }

    pub fn caught(&mut self, unit: &Unit) -> Acted
        requires { self.old.top.place < usize.MAX }
        ensures { IfOk result (ActsAlone unit.now Caught self.old self.new) }
    {
        let Some(w) = self.top.operands.operand(0) else {
            return Ok(Turn::Stuck);
        };
        let Raised { kind, arg } = w.exception()?;
        self.push(Operand::Value(Value::Exc(kind, arg)))
    }

    pub fn uncaught(&mut self, unit: &Unit) -> Acted
        ensures { IfOk result (ActsAlone unit.now Uncaught self.old self.new) }
    {
        let Some(w) = self.top.operands.pop() else {
            return Ok(Turn::Stuck);
        };
        let raised = w.exception()?;
        Ok(Turn::Throws(raised))
    }
}

/// Whether the value of a clause catches exceptions of a kind.
fn catches(alloc: Global, value: &Value, kind: ExcKind) -> Result<Result<bool, Raised>, NoMemory>
    ensures { IfOk result (λ answer. plain_answer answer ≡ catches (plain value.now) kind) }
{
    match value {
        Value::Kind(k) => Ok(Ok(kind.is_or_under(*k))),
        Value::Tuple(items) => some_catches(alloc, items.as_slice(), kind),
        _ => Ok(Err(Raised::of(alloc, Cause::NotExceptionKind)?)),
    }
}

/// Whether one of the values does. Each must be a kind.
fn some_catches(
    alloc: Global,
    values: &[Value],
    kind: ExcKind,
) -> Result<Result<bool, Raised>, NoMemory>
    ensures { IfOk result (λ answer.
        plain_answer answer ≡ some_catches (packed (plains values.now)) kind) }
{
    let mut holds = false;
    for value in values {
        match value {
            Value::Kind(k) => holds = holds || kind.is_or_under(*k),
            _ => return Ok(Err(Raised::of(alloc, Cause::NotExceptionKind)?)),
        }
    }
    Ok(Ok(holds))
}
