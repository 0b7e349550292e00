// Exceptions that operations raise.

ghost use Rattle.std.specs.Prelude.{◌≡◌, IfOk, Err};
ghost use Rattle.py_value.specs.View.{plain, plain_raised, plain_value_answer};
ghost use Rattle.py_value.specs.Plain.{may_nest};
ghost use Rattle.py_value.specs.Causes.{raised_by, key_error};

use crate::cause::Cause;
use crate::exception::ExcKind;
use crate::limits::MOST_NESTED;
use crate::shared::Argument;
use crate::value::{Raised, Value};
use py_text::{NoMemory, Text};
use std::alloc::Global;

impl Raised {
    /// The exception of a cause.
    pub fn of(alloc: Global, cause: Cause) -> Result<Raised, NoMemory>
        ensures { IfOk result (λ raised. plain_raised raised ≡ raised_by cause) }
    {
        let kind = cause.kind();
        match cause {
            Cause::TooManyItems => Ok(Raised {
                kind,
                arg: Argument::none(),
            }),
            _ => {
                let text = Text::from_str(alloc, cause.text())?;
                let arg = Argument::of(alloc, Value::Str(text))?;
                Ok(Raised { kind, arg })
            }
        }
    }

    /// A `KeyError` with the key, or a `RecursionError` where the key is too deep for an argument.
    pub fn of_key(alloc: Global, key: &Value) -> Result<Raised, NoMemory>
        ensures { IfOk result (λ raised. plain_raised raised ≡ key_error (plain key.now)) }
    {
        if key.may_nest() {
            let key = key.copy(alloc)?;
            let arg = Argument::of(alloc, key)?;
            Ok(Raised {
                kind: ExcKind::KeyError,
                arg,
            })
        } else {
            Raised::of(alloc, Cause::TooDeep)
        }
    }
}

/// The exception of a cause, in place of a value.
pub(crate) fn raise(alloc: Global, cause: Cause) -> Result<Result<Value, Raised>, NoMemory>
    ensures { IfOk result (λ answer. plain_value_answer answer ≡ Err (raised_by cause)) }
{
    Ok(Err(Raised::of(alloc, cause)?))
}

impl Value {
    /// Whether the value may stand in a tuple or be the argument of an exception.
    pub fn may_nest(&self) -> bool
        ensures { result ≡ may_nest (plain self.now) }
    {
        self.depth() < MOST_NESTED
    }
}
