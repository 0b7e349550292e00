// Calls, and frames that begin.
ghost use Rattle.std.specs.Prelude.{◌≡◌, ◌<◌, IfOk, option_map};
ghost use Rattle.py_value.specs.View.{place_of, plain, plains};
ghost use Rattle.py_builtins.specs.Callees.{a_method};
ghost use Rattle.py_builtins.specs.Parameters.{address_of};
ghost use Rattle.py_code.specs.declared.instr.Instr.TheVariants.{Call, Return, Function, FunctionWith};
ghost use Rattle.py_code.specs.Loaded.{modules_of};
ghost use Rattle.py_code.specs.Machine.{enter, new_frame, reach, reach_callee};
ghost use Rattle.py_code.specs.Slots.{by_slots};
ghost use Rattle.py_code.specs.Units.{plain_unit};
ghost use Rattle.py_instructions.specs.Reaching.{plain_reach};
ghost use Rattle.py_instructions.specs.View.{plain_frame, Does, Calls, Acts, ActsAlone};

use crate::frame::{Frame, State};
use crate::lending::{emptied, list_for_call};
use crate::operand::Operand;
use crate::reach::Reach;
use crate::slots::Slots;
use crate::stack::Stack;
use crate::turn::{Acted, Turn};
use cov_event::{CodeId, Event};
use py_builtins::call_method;
use py_code::{Programs, Unit};
use py_value::value::FuncId;
use py_value::{Addr, Cause, Method, NoMemory, Raised, Value};
use py_world::{Callee, Store, unit_in};
use std::alloc::Global;

/// The most frames that stand on each other.
const MOST_FRAMES: u32 = 1000;

impl State {
    pub fn call(
        &mut self,
        alloc: Global,
        unit: &Unit,
        n: u32,
        store: &mut Store,
        programs: &Programs,
    ) -> Acted
        requires { self.old.top.place < usize.MAX }
        ensures { IfOk result (λ t.
            Acts (modules_of programs.now) (plain_unit unit.now) (Call n) self.old store.old
            self.new store.new t) }
    {
        let count = n as usize;
        let are_lent = self.top.operands.borrows_values(count);
        let list = list_for_call(alloc, are_lent, &mut self.spare);
        let Some(values) = self.top.operands.take_values(list, count)? else {
            return Ok(Turn::Stuck);
        };
        let Some(f) = self.top.operands.pop() else {
            drop(values);
            return Ok(Turn::Stuck);
        };
        let Callee { method, value } = f.into_callee();
        match method {
            None => self.call_value(alloc, value, values, store, programs),
            Some(method) => self.call_method(alloc, method, value, values, store, programs),
        }
    }

    fn call_method(
        &mut self,
        alloc: Global,
        method: Method,
        on: Value,
        values: Vec<Value>,
        store: &mut Store,
        programs: &Programs,
    ) -> Acted
        requires { self.old.top.place < usize.MAX }
        ensures { IfOk result (Calls (modules_of programs.now)
            (reach_callee (modules_of programs.now) (a_method method (plain on))
            (plains values.items)) self.old store.old self.new store.new) }
    {
        let answer = call_method(alloc, method, &on, &values, &mut store.heap)?;
        drop(on);
        self.spare = emptied(values);
        self.push_answer(answer)
    }

    /// Calls a value.
    fn call_value(
        &mut self,
        alloc: Global,
        value: Value,
        values: Vec<Value>,
        store: &mut Store,
        programs: &Programs,
    ) -> Acted
        requires { self.old.top.place < usize.MAX }
        ensures { IfOk result (Calls (modules_of programs.now)
            (reach (modules_of programs.now) (plain value) (plains values.items)) self.old
            store.old self.new store.new) }
    {
        let reach = Reach::of_value(alloc, &value, values, store, programs)?;
        self.lead_to(alloc, reach, store, programs)
    }

    /// Does what a call leads to.
    fn lead_to(
        &mut self,
        alloc: Global,
        reach: Reach,
        store: &mut Store,
        programs: &Programs,
    ) -> Acted
        requires { self.old.top.place < usize.MAX }
        ensures { IfOk result (Calls (modules_of programs.now) (plain_reach reach) self.old
            store.old self.new store.new) }
    {
        match reach {
            Reach::Gives(value) => self.push(Operand::Value(value)),
            Reach::Raises(raised) => Ok(Turn::Throws(raised)),
            Reach::Begins(code, values) => self.enter(alloc, code, values, store, programs),
            Reach::Asks(which, values) => Ok(Turn::Asks(which, values)),
        }
    }

    /// A frame begins, where there may be one more; that takes a step.
    pub fn enter(
        &mut self,
        alloc: Global,
        code: CodeId,
        values: Vec<Value>,
        store: &mut Store,
        programs: &Programs,
    ) -> Acted
        ensures { IfOk result (Does (modules_of programs.now)
            (enter (by_slots (modules_of programs.now)) (modules_of programs.now) code
            (plains values.items)) self.old store.old self.new store.new) }
    {
        if self.top.depth >= MOST_FRAMES {
            drop(values);
            return Ok(Turn::Throws(Raised::of(alloc, Cause::TooDeep)?));
        }
        if self.steps == 0 {
            drop(values);
            return Ok(Turn::Spent);
        }
        self.steps -= 1;
        let depth = self.top.depth + 1;
        let frame = new_frame(alloc, code, values, depth, programs)?;
        let caller = std::mem::replace(&mut self.top, frame);
        self.callers.push(caller)?;
        store.enter(alloc, code, programs)?;
        Ok(Turn::Tells(Event::Call(code)))
    }

    pub fn give_back(&mut self, unit: &Unit) -> Turn
        ensures { ActsAlone unit.now Return self.old self.new result }
    {
        match self.top.operands.take_value() {
            None => Turn::Stuck,
            Some(value) => Turn::Gives(value),
        }
    }

    pub fn function(&mut self, unit: &Unit, k: u32) -> Acted
        requires { self.old.top.place < usize.MAX }
        ensures { IfOk result (ActsAlone unit.now (Function k) self.old self.new) }
    {
        let function = FuncId {
            module: self.top.code.module,
            unit: k,
        };
        self.push(Operand::Value(Value::Func(function, None)))
    }

    pub fn function_with(&mut self, unit: &Unit, k: u32) -> Acted
        requires { self.old.top.place < usize.MAX }
        ensures { IfOk result (ActsAlone unit.now (FunctionWith k) self.old self.new) }
    {
        let Some(value) = self.top.operands.take_value() else {
            return Ok(Turn::Stuck);
        };
        let defaults = address_of(&value);
        drop(value);
        let function = FuncId {
            module: self.top.code.module,
            unit: k,
        };
        self.push(Operand::Value(Value::Func(function, defaults)))
    }
}

/// The address of a list.
fn address_of(value: &Value) -> Option<Addr>
    ensures { option_map place_of result ≡ address_of (plain value.now) }
{
    match value {
        Value::None => None,
        Value::Bool(_) => None,
        Value::Int(_) => None,
        Value::Str(_) => None,
        Value::Tuple(_) => None,
        Value::List(addr) => Some(*addr),
        Value::Dict(_) => None,
        Value::Func(_, _) => None,
        Value::Module(_) => None,
        Value::Kind(_) => None,
        Value::Exc(_, _) => None,
        Value::Builtin(_) => None,
    }
}

/// A frame at its begin.
pub fn new_frame(
    alloc: Global,
    code: CodeId,
    values: Vec<Value>,
    depth: u32,
    programs: &Programs,
) -> Result<Frame, NoMemory>
    ensures { IfOk result (λ f.
        plain_frame f
        ≡ new_frame (by_slots (modules_of programs.now)) (modules_of programs.now) code
        (plains values.items) depth) }
{
    let count = match unit_in(programs, code) {
        None => 0,
        Some(unit) => unit.locals.len(),
    };
    Ok(Frame {
        code,
        place: 0,
        operands: Stack::new(alloc),
        slots: Slots::fresh(alloc, values, count)?,
        line: 0,
        depth,
    })
}
