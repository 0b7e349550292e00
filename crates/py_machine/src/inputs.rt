// Built-in functions on an input that is read up to its end, and never after it.
ghost use Rattle.std.specs.Prelude.{◌≡◌, ◌≤◌, true, [], IfOk, OnErr, IsErrOf};
ghost use Rattle.cov_outside.specs.Counts.{Rose};
ghost use Rattle.cov_outside.specs.Prefixes.{GainsPrefix, LosesPrefix};
ghost use Rattle.py_value.specs.HeapView.{plain_heap};
ghost use Rattle.py_value.specs.Plain.{PlainHeap};
ghost use Rattle.py_value.specs.View.{plains, plain_outcome};
ghost use Rattle.py_builtins.specs.Answering.{RaiseKeeps};
ghost use Rattle.py_builtins.specs.Builtins.{builtin_of};
ghost use Rattle.py_builtins.specs.Inputs.{Gives, Wrote};
ghost use Rattle.py_machine.specs.Ends.{finds_end};
ghost use Rattle.py_machine.specs.Told.{PartOnInput, IsAtEnd};

use cov_outside::{Failed, Sink, Source};
use py_builtins::{RunFault, call_builtin};
use py_value::{Builtin, ExcKind, Heap, Raised, Value};
use std::alloc::Global;

/// A source at its end.
#[derive(Drop)]
struct NoInput;

impl Source for NoInput {
    ghost use Rattle.std.specs.Prelude.{[]};
    ghost use Rattle.std.proofs.Common.{lit≤};

    ghost tells = { Unit {0} };

    ghost left = { λ _. [] };

    ghost faults = { λ _. 0 };

    ghost bounded = { λ _. lit≤ tt };

    fn read(&mut self, _buf: &mut [u8]) -> Result<usize, Failed> {
        Ok(0)
    }
}

/// Calls a built-in function. Once it found no input left, the source isn't read again: it might
/// give bytes after its end, as a terminal does.
pub fn call_to_end<I: Source, O: Sink>(
    alloc: Global,
    which: Builtin,
    args: &[Value],
    heap: &mut Heap,
    at_end: &mut bool,
    input: &mut I,
    out: &mut O,
) -> Result<Result<Value, Raised>, RunFault>
    requires { IsAtEnd at_end.old I.tells (I.left input.old) }
    ensures answer { IfOk result (λ answer. PartOnInput
        I.tells (I.left input.old) (I.left input.new) at_end.old at_end.new
        (λ all rest. Gives (builtin_of which (plains args.now) (plain_heap heap.old) all)
        (plain_outcome answer (plain_heap heap.new))
        (Wrote O.tells (O.contents out.old) (O.contents out.new)) rest)) }
    ensures unread { at_end.old ≡ true → input.new ≡ input.old }
    ensures raised { RaiseKeeps result heap.old heap.new }
    ensures gained { O.tells
        → OnErr result (GainsPrefix (O.contents out.old) (O.contents out.new)
        (builtin_of which (plains args.now) (plain_heap heap.old) (I.left input.old)).written) }
    ensures lost { I.tells → OnErr result (LosesPrefix (I.left input.old) (I.left input.new)) }
    ensures reads { I.faults input.old ≤ I.faults input.new }
    ensures writes { O.faults out.old ≤ O.faults out.new }
    ensures read_fault { IsErrOf result RunFault.ReadFault
        → Rose (I.faults input.old) (I.faults input.new) }
    ensures write_fault { IsErrOf result RunFault.WriteFault
        → Rose (O.faults out.old) (O.faults out.new) }
{
    if *at_end {
        return Ok(call_builtin(alloc, which, args, heap, &mut NoInput, out)?);
    }
    let answer = call_builtin(alloc, which, args, heap, input, out)?;
    *at_end = finds_end(which, &answer);
    Ok(answer)
}

/// Whether this is the answer that no input was left.
fn finds_end(which: Builtin, answer: &Result<Value, Raised>) -> bool
    ensures { (h : PlainHeap) → result ≡ finds_end which (plain_outcome answer.now h) }
{
    match which {
        Builtin::Input => match answer {
            Ok(_) => false,
            Err(raised) => raised.kind.is_same(ExcKind::EOFError),
        },
        Builtin::Print
        | Builtin::Len
        | Builtin::Range
        | Builtin::Str
        | Builtin::Repr
        | Builtin::Int
        | Builtin::Exit => false,
    }
}
