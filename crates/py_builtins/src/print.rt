// `print`: all texts first, and then the line.

ghost use Rattle.std.specs.Prelude.{◌≡◌, ◌≤◌, ◌++◌, [], IfOk, OnOk, OnErr, IsErrOf};
ghost use Rattle.cov_outside.specs.Counts.{Rose};
ghost use Rattle.cov_outside.specs.Prefixes.{GainsPrefix};
ghost use Rattle.py_value.specs.View.{plains, plain_answer};
ghost use Rattle.py_value.specs.HeapView.{plain_heap};
ghost use Rattle.py_builtins.specs.Answering.{Answers};
ghost use Rattle.py_builtins.specs.Builtins.{print_of};
ghost use Rattle.py_builtins.specs.Calls.{gap, printed_text};

use crate::fault::{RunFault, write};
use crate::texts::str_of;
use cov_outside::Sink;
use py_value::{Heap, NoMemory, Raised, Text, Value};
use std::alloc::Global;

/// `print(..)`.
pub(crate) fn print<O: Sink>(
    alloc: Global,
    args: &[Value],
    heap: &Heap,
    out: &mut O,
) -> Result<Result<Value, Raised>, RunFault>
    ensures answer { Answers result heap.now
        ((print_of (plains args.now) (plain_heap heap.now) []).answer) }
    ensures written { O.tells
        → OnOk result (O.contents out.new
        ≡ O.contents out.old ++ (print_of (plains args.now) (plain_heap heap.now) []).written) }
    ensures gained { O.tells
        → OnErr result (GainsPrefix (O.contents out.old) (O.contents out.new)
        (print_of (plains args.now) (plain_heap heap.now) []).written) }

    ensures count { O.faults out.old ≤ O.faults out.new }
    ensures write_fault { IsErrOf result RunFault.WriteFault
        → Rose (O.faults out.old) (O.faults out.new) }
    ensures no_read_fault { IsErrOf result RunFault.ReadFault → ⊥ }
{
    match line_of(alloc, args, heap)? {
        Ok(line) => {
            write(alloc, out, line.as_str().as_bytes())?;
            Ok(Ok(Value::None))
        }
        Err(raised) => Ok(Err(raised)),
    }
}

/// The line of the values' texts.
fn line_of(alloc: Global, args: &[Value], heap: &Heap) -> Result<Result<Text, Raised>, NoMemory>
    ensures { IfOk result (λ answer.
        plain_answer answer ≡ printed_text (plains args.now) (plain_heap heap.now)) }
{
    let mut line = Text::new(alloc);
    for i in 0..args.len() {
        push_gap(&mut line, i)?;
        match str_of(alloc, &args[i], heap)? {
            Ok(text) => line.append(&text)?,
            Err(raised) => return Ok(Err(raised)),
        }
    }
    line.push('\n')?;
    Ok(Ok(line))
}

/// What stands in front of the text at a place.
fn push_gap(line: &mut Text, at: usize) -> Result<(), NoMemory>
    ensures { OnOk result (line.new ≡ line.old ++ gap at) }
{
    if at == 0 { Ok(()) } else { line.push(' ') }
}
