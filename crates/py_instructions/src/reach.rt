// What calls lead to.
ghost use Rattle.std.specs.Prelude.{◌≡◌, IfOk, option_map};
ghost use Rattle.py_value.specs.View.{place_of, plain, plains};
ghost use Rattle.py_code.specs.Loaded.{modules_of};
ghost use Rattle.py_code.specs.Machine.{code_of, to_function, reach};
ghost use Rattle.py_code.specs.Units.{unit_at};
ghost use Rattle.py_instructions.specs.Reaching.{plain_reach, BeginsUnit};
ghost use Rattle.py_instructions.specs.View.{Outside, effects_of};

use cov_event::CodeId;
use py_builtins::exception_of;
use py_code::Programs;
use py_value::value::FuncId;
use py_value::{Addr, Builtin, Cause, NoMemory, Raised, Value};
use py_world::{Store, arguments, unit_in};
use std::alloc::Global;

/// A value or an exception at once, a frame, or a built-in function.
#[derive(Drop)]
pub enum Reach {
    Gives(Value),
    Raises(Raised),
    Begins(CodeId, Vec<Value>),
    Asks(Builtin, Vec<Value>),
}

impl Reach {
    /// A call of a value.
    pub fn of_value(
        alloc: Global,
        value: &Value,
        values: Vec<Value>,
        store: &Store,
        programs: &Programs,
    ) -> Result<Reach, NoMemory>
        ensures leads { IfOk result (λ r. (o : Outside) →
            reach (modules_of programs.now) (plain value.now) (plains values.items)
            (effects_of store.now o)
            ≡ plain_reach r (effects_of store.now o)) }
        ensures unit { IfOk result (BeginsUnit (modules_of programs.now)) }
    {
        match value {
            Value::Func(function, defaults) => Reach::of_function(
                alloc, *function, *defaults, values, store, programs,
            ),
            Value::Kind(kind) => match exception_of(alloc, *kind, &values)? {
                Ok(made) => Ok(Reach::Gives(made)),
                Err(raised) => Ok(Reach::Raises(raised)),
            },
            Value::Builtin(which) => Ok(Reach::Asks(*which, values)),
            _ => {
                drop(values);
                Ok(Reach::Raises(Raised::of(alloc, Cause::NotCallable)?))
            }
        }
    }

    /// A call of a function.
    fn of_function(
        alloc: Global,
        function: FuncId,
        defaults: Option<Addr>,
        values: Vec<Value>,
        store: &Store,
        programs: &Programs,
    ) -> Result<Reach, NoMemory>
        ensures leads { IfOk result (λ r. (o : Outside) →
            to_function (unit_at (modules_of programs.now) (code_of function)) function
            (option_map place_of defaults) (plains values.items) (effects_of store.now o)
            ≡ plain_reach r (effects_of store.now o)) }
        ensures unit { IfOk result (BeginsUnit (modules_of programs.now)) }
    {
        let code = CodeId {
            module: function.module,
            unit: function.unit,
        };
        match unit_in(programs, code) {
            None => {
                drop(values);
                Ok(Reach::Raises(Raised::of(alloc, Cause::NotCallable)?))
            }
            Some(callee) => match arguments(
                alloc,
                callee.params.len(),
                values,
                defaults,
                &store.heap,
            )? {
                None => Ok(Reach::Raises(Raised::of(alloc, Cause::WrongArgumentCount)?)),
                Some(values) => Ok(Reach::Begins(code, values)),
            },
        }
    }
}
