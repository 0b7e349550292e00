// The built-in functions.

ghost use Rattle.std.specs.Prelude.{◌≡◌, ◌≢◌, ◌≤◌, ◌++◌, [], IfOk, OnOk, OnErr, IsErrOf};
ghost use Rattle.cov_outside.specs.Counts.{Rose};
ghost use Rattle.cov_outside.specs.Prefixes.{GainsPrefix, LosesPrefix};
ghost use Rattle.py_value.specs.HeapView.{plain_heap};
ghost use Rattle.py_value.specs.View.{plain, plains, plain_outcome};
ghost use Rattle.py_builtins.specs.Answering.{Answers, RaiseKeeps};
ghost use Rattle.py_builtins.specs.Builtins.{str_of, repr_of, builtin_of};
ghost use Rattle.py_builtins.specs.Inputs.{OnReads, Gives, Wrote};

use crate::arguments::only;
use crate::exceptions::raised_with;
use crate::fault::RunFault;
use crate::input::ask;
use crate::lengths::len;
use crate::literals::int;
use crate::print::print;
use crate::raising::raise;
use crate::ranges::range;
use crate::texts::{repr_of, str_of};
use cov_outside::{Sink, Source};
use py_value::{Builtin, Cause, ExcKind, Heap, NoMemory, Raised, Value};
use std::alloc::Global;

/// A built-in, called with these arguments. It writes and reads also where it raises. What `answer`
/// says of two calls holds of both one after the other: their reads are one list, the newest in
/// front.
pub fn call_builtin<I: Source, O: Sink>(
    alloc: Global,
    which: Builtin,
    args: &[Value],
    heap: &mut Heap,
    input: &mut I,
    out: &mut O,
) -> Result<Result<Value, Raised>, RunFault>
    ensures answer { IfOk result (λ answer. OnReads I.tells (I.left input.old) (I.left input.new)
        (λ all rest. Gives (builtin_of which (plains args.now) (plain_heap heap.old) all)
        (plain_outcome answer (plain_heap heap.new))
        (Wrote O.tells (O.contents out.old) (O.contents out.new)) rest)) }
    ensures raised { RaiseKeeps result heap.old heap.new }
    ensures written { O.tells
        → OnOk result (O.contents out.new
        ≡ O.contents out.old
        ++ (builtin_of which (plains args.now) (plain_heap heap.old) (I.left input.old)).written) }
    ensures left { I.tells
        → OnOk result (I.left input.new
        ≡ (builtin_of which (plains args.now) (plain_heap heap.old) (I.left input.old)).left) }
    // After a fault a part of it is written, and no more is read than without the fault.
    ensures heap { OnErr result (plain_heap heap.new ≡ plain_heap heap.old) }
    ensures gained { O.tells
        → OnErr result (GainsPrefix (O.contents out.old) (O.contents out.new)
        (builtin_of which (plains args.now) (plain_heap heap.old) (I.left input.old)).written) }
    ensures lost { I.tells → OnErr result (LosesPrefix (I.left input.old) (I.left input.new)) }
    ensures no_further { I.tells
        → OnErr result (LosesPrefix (I.left input.new)
        (builtin_of which (plains args.now) (plain_heap heap.old) (I.left input.old)).left) }

    ensures reads { I.faults input.old ≤ I.faults input.new }
    ensures writes { O.faults out.old ≤ O.faults out.new }
    ensures read_fault { IsErrOf result RunFault.ReadFault
        → Rose (I.faults input.old) (I.faults input.new) }
    ensures write_fault { IsErrOf result RunFault.WriteFault
        → Rose (O.faults out.old) (O.faults out.new) }
    // The other built-ins touch neither the source nor the sink.
    ensures source { which ≢ Builtin.Input → input.new ≡ input.old }
    ensures sink { which ≢ Builtin.Print → which ≢ Builtin.Input → out.new ≡ out.old }
{
    match which {
        Builtin::Print => print(alloc, args, heap, out),
        Builtin::Input => ask(alloc, args, heap, input, out),
        // `call_quiet` lists the others.
        _ => Ok(call_quiet(alloc, which, args, heap)?),
    }
}

/// A built-in that neither writes nor reads.
fn call_quiet(
    alloc: Global,
    which: Builtin,
    args: &[Value],
    heap: &mut Heap,
) -> Result<Result<Value, Raised>, NoMemory>
    requires not_print { which ≢ Builtin.Print }
    requires not_input { which ≢ Builtin.Input }
    ensures answer { Answers result heap.new
        ((builtin_of which (plains args.now) (plain_heap heap.old) []).answer) }
    ensures raised { RaiseKeeps result heap.old heap.new }
    ensures err { OnErr result (plain_heap heap.new ≡ plain_heap heap.old) }
{
    match which {
        Builtin::Len => len(alloc, args, heap),
        Builtin::Range => range(alloc, args, heap),
        Builtin::Str => text(alloc, args, heap),
        Builtin::Repr => display(alloc, args, heap),
        Builtin::Int => int(alloc, args, heap),
        Builtin::Exit => Ok(Err(raised_with(alloc, ExcKind::SystemExit, args)?)),
        Builtin::Print | Builtin::Input => unreachable!(),
    }
}

/// `str(x)`.
fn text(alloc: Global, args: &[Value], heap: &Heap) -> Result<Result<Value, Raised>, NoMemory>
    ensures { Answers result heap.now (str_of (plains args.now) (plain_heap heap.now)) }
{
    match only(args) {
        None => raise(alloc, Cause::WrongArgumentCount),
        Some(value) => match str_of(alloc, value, heap)? {
            Ok(text) => Ok(Ok(Value::Str(text))),
            Err(raised) => Ok(Err(raised)),
        },
    }
}

/// `repr(x)`.
fn display(alloc: Global, args: &[Value], heap: &Heap) -> Result<Result<Value, Raised>, NoMemory>
    ensures { Answers result heap.now (repr_of (plains args.now) (plain_heap heap.now)) }
{
    match only(args) {
        None => raise(alloc, Cause::WrongArgumentCount),
        Some(value) => match repr_of(alloc, value, heap)? {
            Ok(text) => Ok(Ok(Value::Str(text))),
            Err(raised) => Ok(Err(raised)),
        },
    }
}
