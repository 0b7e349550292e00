// `input`: the prompt, and then a line.

ghost use Rattle.std.specs.Prelude.{◌≡◌, ◌≤◌, ◌++◌, Ok, OnOk, OnErr, IfOk, IsErrOf, encode_utf8_all};
ghost use Rattle.cov_outside.specs.Counts.{Rose};
ghost use Rattle.cov_outside.specs.Prefixes.{GainsPrefix, LosesPrefix};
ghost use Rattle.py_value.specs.HeapView.{plain_heap};
ghost use Rattle.py_value.specs.View.{plains, plain_answer, plain_outcome};
ghost use Rattle.py_builtins.specs.Builtins.{line_read, input_of, asked};
ghost use Rattle.py_builtins.specs.Calls.{prompt_of};
ghost use Rattle.py_builtins.specs.Inputs.{OnReads, Gives, Wrote};

use crate::arguments::{are_none, only};
use crate::fault::{RunFault, write};
use crate::lines::read_text;
use crate::raising::text_answer;
use crate::texts::str_of;
use cov_outside::{Sink, Source};
use py_value::{Cause, Heap, NoMemory, Raised, Text, Value};
use std::alloc::Global;

/// `input()`, `input(p)`.
pub(crate) fn ask<I: Source, O: Sink>(
    alloc: Global,
    args: &[Value],
    heap: &Heap,
    input: &mut I,
    out: &mut O,
) -> Result<Result<Value, Raised>, RunFault>
    ensures answer { IfOk result (λ answer. OnReads I.tells (I.left input.old) (I.left input.new)
        (λ all rest. Gives (input_of (plains args.now) (plain_heap heap.now) all)
        (plain_outcome answer (plain_heap heap.now))
        (Wrote O.tells (O.contents out.old) (O.contents out.new)) rest)) }
    ensures written { O.tells
        → OnOk result (O.contents out.new
        ≡ O.contents out.old
        ++ (input_of (plains args.now) (plain_heap heap.now) (I.left input.old)).written) }
    ensures left { I.tells
        → OnOk result (I.left input.new
        ≡ (input_of (plains args.now) (plain_heap heap.now) (I.left input.old)).left) }

    ensures gained { O.tells
        → OnErr result (GainsPrefix (O.contents out.old) (O.contents out.new)
        (input_of (plains args.now) (plain_heap heap.now) (I.left input.old)).written) }
    ensures lost { I.tells → OnErr result (LosesPrefix (I.left input.old) (I.left input.new)) }
    ensures no_further { I.tells
        → OnErr result (LosesPrefix (I.left input.new)
        (input_of (plains args.now) (plain_heap heap.now) (I.left input.old)).left) }

    ensures reads { I.faults input.old ≤ I.faults input.new }
    ensures writes { O.faults out.old ≤ O.faults out.new }
    ensures read_fault { IsErrOf result RunFault.ReadFault
        → Rose (I.faults input.old) (I.faults input.new) }
    ensures write_fault { IsErrOf result RunFault.WriteFault
        → Rose (O.faults out.old) (O.faults out.new) }
{
    match prompt_of(alloc, args, heap)? {
        Ok(prompt) => ask_with(alloc, &prompt, heap, input, out),
        Err(raised) => Ok(Err(raised)),
    }
}

fn ask_with<I: Source, O: Sink>(
    alloc: Global,
    prompt: &Text,
    heap: &Heap,
    input: &mut I,
    out: &mut O,
) -> Result<Result<Value, Raised>, RunFault>
    ensures answer { IfOk result (λ answer. OnReads I.tells (I.left input.old) (I.left input.new)
        (λ all rest. Gives (asked (Ok prompt.now) (plain_heap heap.now) all)
        (plain_outcome answer (plain_heap heap.now))
        (Wrote O.tells (O.contents out.old) (O.contents out.new)) rest)) }
    ensures written { O.tells
        → OnOk result (O.contents out.new ≡ O.contents out.old ++ encode_utf8_all prompt.now) }
    ensures left { I.tells → OnOk result (I.left input.new ≡ (line_read (I.left input.old)).1) }

    ensures gained { O.tells
        → OnErr result (GainsPrefix (O.contents out.old) (O.contents out.new)
        (encode_utf8_all prompt.now)) }
    ensures lost { I.tells → OnErr result (LosesPrefix (I.left input.old) (I.left input.new)) }
    ensures no_further { I.tells
        → OnErr result (LosesPrefix (I.left input.new) (line_read (I.left input.old)).1) }

    ensures reads { I.faults input.old ≤ I.faults input.new }
    ensures writes { O.faults out.old ≤ O.faults out.new }
    ensures read_fault { IsErrOf result RunFault.ReadFault
        → Rose (I.faults input.old) (I.faults input.new) }
    ensures write_fault { IsErrOf result RunFault.WriteFault
        → Rose (O.faults out.old) (O.faults out.new) }
{
    write_prompt(alloc, prompt, out)?;
    let text = read_text(alloc, input)?;
    Ok(text_answer(alloc, text)?)
}

/// The text of the prompt; without a prompt the empty one.
fn prompt_of(alloc: Global, args: &[Value], heap: &Heap) -> Result<Result<Text, Raised>, NoMemory>
    ensures { IfOk result (λ answer.
        plain_answer answer ≡ prompt_of (plains args.now) (plain_heap heap.now)) }
{
    if are_none(args) {
        return Ok(Ok(Text::new(alloc)));
    }
    match only(args) {
        None => Ok(Err(Raised::of(alloc, Cause::WrongArgumentCount)?)),
        Some(prompt) => str_of(alloc, prompt, heap),
    }
}

/// Writes the prompt. An empty one asks nothing of the sink.
fn write_prompt<O: Sink>(alloc: Global, prompt: &Text, out: &mut O) -> Result<(), RunFault>
    ensures written { O.tells
        → OnOk result (O.contents out.new ≡ O.contents out.old ++ encode_utf8_all prompt.now) }
    ensures gained { O.tells
        → OnErr result (GainsPrefix (O.contents out.old) (O.contents out.new)
        (encode_utf8_all prompt.now)) }

    ensures count { O.faults out.old ≤ O.faults out.new }
    ensures write_fault { IsErrOf result RunFault.WriteFault
        → Rose (O.faults out.old) (O.faults out.new) }
    ensures no_read_fault { IsErrOf result RunFault.ReadFault → ⊥ }
{
    if prompt.is_empty() {
        return Ok(());
    }
    write(alloc, out, prompt.as_str().as_bytes())
}
