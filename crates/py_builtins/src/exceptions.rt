// Exceptions that a program makes, and `sys.exit`.

ghost use Rattle.std.specs.Prelude.{◌≡◌, IfOk};
ghost use Rattle.py_value.specs.Plain.{argument};
ghost use Rattle.py_value.specs.View.{plain, plains, plain_raised, plain_value_answer};
ghost use Rattle.py_builtins.specs.Builtins.{raised_with, exception_of};

use crate::arguments::{are_none, only};
use crate::raising::raise;
use py_value::{Argument, Cause, ExcKind, NoMemory, Raised, Value};
use std::alloc::Global;

/// A kind called with these arguments: an exception with the value as its argument, where it is
/// given one.
pub fn exception_of(
    alloc: Global,
    kind: ExcKind,
    args: &[Value],
) -> Result<Result<Value, Raised>, NoMemory>
    ensures { IfOk result (λ answer.
        plain_value_answer answer ≡ exception_of kind (plains args.now)) }
{
    if are_none(args) {
        return Ok(Ok(Value::Exc(kind, Argument::none())));
    }
    match only(args) {
        None => raise(alloc, Cause::WrongArgumentCount),
        Some(value) => {
            if !value.may_nest() {
                return raise(alloc, Cause::TooDeep);
            }
            let arg = argument_of(alloc, value)?;
            Ok(Ok(Value::Exc(kind, arg)))
        }
    }
}

/// The exception of a kind, raised with these arguments.
pub(crate) fn raised_with(alloc: Global, kind: ExcKind, args: &[Value]) -> Result<Raised, NoMemory>
    ensures { IfOk result (λ raised. plain_raised raised ≡ raised_with kind (plains args.now)) }
{
    if are_none(args) {
        return Ok(Raised {
            kind,
            arg: Argument::none(),
        });
    }
    match only(args) {
        None => Raised::of(alloc, Cause::WrongArgumentCount),
        Some(value) => {
            if !value.may_nest() {
                return Raised::of(alloc, Cause::TooDeep);
            }
            let arg = argument_of(alloc, value)?;
            Ok(Raised { kind, arg })
        }
    }
}

/// A copy of the value as an argument.
fn argument_of(alloc: Global, value: &Value) -> Result<Argument, NoMemory>
    ensures { IfOk result (λ arg. arg ≡ argument (plain value.now)) }
{
    Argument::of(alloc, value.copy(alloc)?)
}
