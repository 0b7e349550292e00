// The texts of values, by `str` and by `repr`.

ghost use Rattle.std.specs.Prelude.{◌≡◌, [], IfOk};
ghost use Rattle.py_value.specs.View.{plain, plain_answer};
ghost use Rattle.py_value.specs.HeapView.{plain_heap};
ghost use Rattle.py_value.specs.Answers.{in_words};
ghost use Rattle.py_value.specs.Causes.{raised_by};
ghost use Rattle.py_builtins.specs.Texts.{text_within, display_within, exception_text, str_text, repr_text};
ghost use Rattle.py_builtins.specs.Writing.{Writing, answer_of};
ghost use Rattle.py_builtins.specs.Written.{IsWritten};

use crate::displays::display;
use crate::writer::{Stop, Writer};
use py_value::{Argument, Cause, ExcKind, Heap, MOST_LEVELS, NoMemory, Raised, Text, Value};
use std::alloc::{AllocError, Global};

/// The text that `str` gives.
pub fn str_of(alloc: Global, value: &Value, heap: &Heap) -> Result<Result<Text, Raised>, NoMemory>
    ensures { IfOk result (λ answer.
        plain_answer answer ≡ str_text (plain value.now) (plain_heap heap.now)) }
{
    let mut out = Writer::new(alloc);
    let written = text(alloc, MOST_LEVELS, value, heap, &mut out);
    answer(alloc, written, out)
}

/// The text that `repr` gives: the value as a display writes it.
pub fn repr_of(alloc: Global, value: &Value, heap: &Heap) -> Result<Result<Text, Raised>, NoMemory>
    ensures { IfOk result (λ answer.
        plain_answer answer ≡ repr_text (plain value.now) (plain_heap heap.now)) }
{
    let mut out = Writer::new(alloc);
    let written = display_alone(alloc, MOST_LEVELS, value, heap, &mut out);
    answer(alloc, written, out)
}

/// Writes the text of a value.
#[cycle(text)]
fn text(
    alloc: Global,
    levels: u32,
    value: &Value,
    heap: &Heap,
    out: &mut Writer,
) -> Result<(), Stop>
    ensures { IsWritten result out.old.text out.new.text
        (text_within levels (plain_heap heap.now) (plain value.now)) }
{
    if levels == 0 {
        return Err(Stop::Raises(Cause::TooDeep));
    }
    match value {
        Value::Str(text) => out.push_text(text),
        Value::Exc(kind, arg) => exception_text(alloc, levels - 1, *kind, arg, heap, out),
        _ => display_alone(alloc, levels, value, heap, out),
    }
}

/// Writes the text of an exception, by its argument.
#[cycle(text)]
fn exception_text(
    alloc: Global,
    levels: u32,
    kind: ExcKind,
    arg: &Argument,
    heap: &Heap,
    out: &mut Writer,
) -> Result<(), Stop>
    ensures { IsWritten result out.old.text out.new.text
        (exception_text (text_within levels (plain_heap heap.now))
        (display_within levels (plain_heap heap.now) []) kind arg.now) }
{
    match arg.value() {
        None => Ok(()),
        Some(value) => {
            if kind.is_same(ExcKind::KeyError) {
                display_alone(alloc, levels, value, heap, out)
            } else {
                text(alloc, levels, value, heap, out)
            }
        }
    }
}

/// Writes the display of a value that stands inside no other.
fn display_alone(
    alloc: Global,
    levels: u32,
    value: &Value,
    heap: &Heap,
    out: &mut Writer,
) -> Result<(), Stop>
    ensures { IsWritten result out.old.text out.new.text
        (display_within levels (plain_heap heap.now) [] (plain value.now)) }
{
    let mut inside = Vec::new(alloc);
    display(levels, value, heap, &mut inside, out)
}

/// The text, or the exception, as the writing came out.
fn answer(
    alloc: Global,
    written: Result<(), Stop>,
    out: Writer,
) -> Result<Result<Text, Raised>, NoMemory>
    ensures { (w : Writing) → IsWritten written [] out.text w
        → IfOk result (λ answer. plain_answer answer ≡ in_words raised_by (answer_of w)) }
{
    match written {
        Ok(()) => Ok(Ok(out.into_text())),
        Err(stop) => match stop {
            Stop::Raises(cause) => Ok(Err(Raised::of(alloc, cause)?)),
            Stop::NoMemory => Err(AllocError),
        },
    }
}
