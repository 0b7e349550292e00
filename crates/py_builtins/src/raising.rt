// Answers on whatever heap: what is raised, and texts.

ghost use Rattle.std.specs.Prelude.{◌≡◌, Result, Err, IfOk};
ghost use Rattle.py_value.specs.Causes.{raised_by};
ghost use Rattle.py_value.specs.Plain.{PlainValue, PlainRaised};
ghost use Rattle.py_value.specs.View.{plain_value_answer};
ghost use Rattle.py_builtins.specs.Arguments.{raises};
ghost use Rattle.py_builtins.specs.Calls.{AnswersAnywhere, text_answer};

use py_value::{Cause, NoMemory, Raised, Text, Value};
use std::alloc::Global;

/// The answer of a call that raises by this cause, on whatever heap.
pub(crate) fn raise(alloc: Global, cause: Cause) -> Result<Result<Value, Raised>, NoMemory>
    ensures answer { AnswersAnywhere result (λ _. raises cause) }
    ensures value { (answer : Result PlainValue PlainRaised) → Err (raised_by cause) ≡ answer
        → IfOk result (λ given. plain_value_answer given ≡ answer) }
{
    Ok(Err(Raised::of(alloc, cause)?))
}

/// The text as an answer, or what its cause raises.
pub(crate) fn text_answer(
    alloc: Global,
    text: Result<Text, Cause>,
) -> Result<Result<Value, Raised>, NoMemory>
    ensures { AnswersAnywhere result (text_answer text) }
{
    match text {
        Ok(text) => Ok(Ok(Value::Str(text))),
        Err(cause) => raise(alloc, cause),
    }
}
