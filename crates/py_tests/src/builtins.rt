// Rows of the table of built-in functions. The expected values are those of the Python Standard
// Library Reference, but for lists from `range` and the words of exceptions, which are the
// language's own.

use crate::literals::{Lit, make};
use cov_outside::{MemSink, MemSource, Source};
use py_builtins::{RunFault, call_builtin, call_method, exception_of, str_of};
use py_value::{Builtin, ExcKind, Heap, Items, Method, NoMemory, Raised, Text, Value};
use std::alloc::Global;

mod rows;

use rows::{CALLS, Call, TALKS, Want};

fn bytes_of(alloc: Global, bytes: &[u8]) -> Result<Vec<u8>, NoMemory> {
    let mut copy = Vec::new(alloc);
    copy.extend_from_slice(bytes)?;
    Ok(copy)
}

fn source(alloc: Global, bytes: &[u8], failing: Vec<u64>) -> Result<MemSource, NoMemory> {
    Ok(MemSource::new(bytes_of(alloc, bytes)?, failing))
}

fn sink(alloc: Global, failing: Vec<u64>) -> MemSink {
    MemSink::new(alloc, Vec::new(alloc), failing)
}

fn arguments(alloc: Global, lits: &[Lit], heap: &mut Heap) -> Result<Vec<Value>, NoMemory> {
    let mut args = Vec::new(alloc);
    for lit in lits {
        args.push(make(alloc, *lit, heap)?)?;
    }
    Ok(args)
}

/// Whether the source has these bytes left, and no more.
fn has_left(source: &mut MemSource, wanted: &[u8]) -> bool {
    let mut buf = [0; 64];
    match source.read(&mut buf) {
        Ok(count) => count <= 64 && &buf[..count] == wanted,
        Err(_) => false,
    }
}

/// Whether the value has this display.
fn is_shown(alloc: Global, value: &Value, wanted: &str, heap: &Heap) -> Result<bool, NoMemory> {
    match py_builtins::repr_of(alloc, value, heap)? {
        Ok(text) => Ok(text.as_str() == wanted),
        Err(_) => Ok(false),
    }
}

/// Whether the exception has this kind and this text.
fn is_raised(
    alloc: Global,
    raised: Raised,
    kind: ExcKind,
    wanted: &str,
    heap: &Heap,
) -> Result<bool, NoMemory> {
    let same = raised.kind.is_same(kind);
    match str_of(alloc, &Value::Exc(raised.kind, raised.arg), heap)? {
        Ok(text) => Ok(same && text.as_str() == wanted),
        Err(_) => Ok(false),
    }
}

fn is_wanted(
    alloc: Global,
    answer: Result<Value, Raised>,
    want: Want,
    heap: &Heap,
) -> Result<bool, NoMemory> {
    match answer {
        Ok(value) => match want {
            Want::Shows(wanted) => is_shown(alloc, &value, wanted, heap),
            Want::Raises(_, _) => Ok(false),
        },
        Err(raised) => match want {
            Want::Shows(_) => Ok(false),
            Want::Raises(kind, wanted) => is_raised(alloc, raised, kind, wanted, heap),
        },
    }
}

fn is_as_the_row_says(
    alloc: Global,
    call: &Call,
    given: &[u8],
    wanted: &str,
    left: &[u8],
) -> Result<bool, RunFault> {
    let mut heap = Heap::new(alloc);
    let args = arguments(alloc, call.2, &mut heap)?;
    let mut input = source(alloc, given, Vec::new(alloc))?;
    let mut out = sink(alloc, Vec::new(alloc));
    let answer = call_builtin(alloc, call.1, &args, &mut heap, &mut input, &mut out)?;
    let answered = is_wanted(alloc, answer, call.3, &heap)?;
    let written = out.into_bytes();
    Ok(answered && written.as_slice() == wanted.as_bytes() && has_left(&mut input, left))
}

#[test]
fn built_ins_answer_as_the_table_says(rt: HostRuntime) {
    for call in &CALLS {
        let same = is_as_the_row_says(rt.alloc(), call, b"ab", "", b"ab");
        assert!(rt; same == Ok(true), "{}", call.0);
    }
}

#[test]
fn print_and_input_do_as_the_table_says(rt: HostRuntime) {
    for talk in &TALKS {
        let same = is_as_the_row_says(rt.alloc(), &talk.0, talk.1, talk.2, talk.3);
        assert!(rt; same == Ok(true), "{}", talk.0.0);
    }
}

/// What `print` writes of these values.
fn printed(alloc: Global, args: &[Value], heap: &mut Heap) -> Result<Vec<u8>, RunFault> {
    let mut input = source(alloc, &[], Vec::new(alloc))?;
    let mut out = sink(alloc, Vec::new(alloc));
    let _ = call_builtin(alloc, Builtin::Print, args, heap, &mut input, &mut out)?;
    Ok(out.into_bytes())
}

/// `print([1, "b", None], (1,), {"k": 2})`.
fn print_values(alloc: Global) -> Result<Vec<u8>, RunFault> {
    let mut heap = Heap::new(alloc);
    let mut items = Vec::new(alloc);
    items.push(Value::Int(1))?;
    items.push(Value::Str(Text::from_str(alloc, "b")?))?;
    items.push(Value::None)?;
    let mut alone = Vec::new(alloc);
    alone.push(Value::Int(1))?;
    let mut args = Vec::new(alloc);
    args.push(Value::List(heap.make_list(items)?))?;
    args.push(Value::Tuple(Items::new(alloc, alone)?))?;
    args.push(make(alloc, Lit::Dict(&[("k", 2)]), &mut heap)?)?;
    printed(alloc, &args, &mut heap)
}

/// `print("a b".split())`.
fn print_parts(alloc: Global) -> Result<Vec<u8>, RunFault> {
    let mut heap = Heap::new(alloc);
    let text = Value::Str(Text::from_str(alloc, "a b")?);
    match call_method(alloc, Method::Split, &text, &[], &mut heap)? {
        Ok(parts) => printed(alloc, &[parts], &mut heap),
        Err(_) => Ok(Vec::new(alloc)),
    }
}

#[test]
fn containers_are_printed(rt: HostRuntime) {
    let written = print_values(rt.alloc()).expect(&rt, "no fault");
    assert!(rt; written.as_slice() == "[1, 'b', None] (1,) {'k': 2}\n".as_bytes());
    let written = print_parts(rt.alloc()).expect(&rt, "no fault");
    assert!(rt; written.as_slice() == "['a', 'b']\n".as_bytes());
}

fn one(alloc: Global, number: u64) -> Result<Vec<u64>, NoMemory> {
    let mut numbers = Vec::new(alloc);
    numbers.push(number)?;
    Ok(numbers)
}

/// A call of `input` with a prompt, a source with a line and a half, and calls that fail.
fn asks(
    alloc: Global,
    reads: Vec<u64>,
    writes: Vec<u64>,
) -> Result<(Result<bool, RunFault>, Vec<u8>, MemSource), NoMemory> {
    let mut heap = Heap::new(alloc);
    let args = arguments(alloc, &[Lit::Str("> ")], &mut heap)?;
    let mut input = source(alloc, b"abc\nde", reads)?;
    let mut out = sink(alloc, writes);
    let answer = match call_builtin(
        alloc,
        Builtin::Input,
        &args,
        &mut heap,
        &mut input,
        &mut out,
    ) {
        Ok(answer) => Ok(answer.is_ok()),
        Err(fault) => Err(fault),
    };
    Ok((answer, out.into_bytes(), input))
}

#[test]
fn a_read_that_fails_in_a_line_leaves_the_rest(rt: HostRuntime) {
    let alloc = rt.alloc();
    let reads = one(alloc, 2).expect(&rt, "memory");
    let (answer, written, mut input) = asks(alloc, reads, Vec::new(alloc)).expect(&rt, "memory");
    assert!(rt; answer == Err(RunFault::ReadFault));
    assert!(rt; written.as_slice() == "> ".as_bytes());
    assert!(rt; has_left(&mut input, b"c\nde"));
}

#[test]
fn a_prompt_that_fails_reads_nothing(rt: HostRuntime) {
    let alloc = rt.alloc();
    let writes = one(alloc, 0).expect(&rt, "memory");
    let (answer, written, mut input) = asks(alloc, Vec::new(alloc), writes).expect(&rt, "memory");
    assert!(rt; answer == Err(RunFault::WriteFault));
    assert!(rt; written.is_empty());
    assert!(rt; has_left(&mut input, b"abc\nde"));
}

/// So many bytes `a`, and after them the others.
fn long(alloc: Global, count: usize, after: &[u8]) -> Result<Vec<u8>, NoMemory> {
    let mut bytes = Vec::new(alloc);
    for _turn in 0..count {
        bytes.push(b'a')?;
    }
    bytes.extend_from_slice(after)?;
    Ok(bytes)
}

/// The length of the text that `input` gives; 0 where it raises `MemoryError`.
fn line_length(alloc: Global, input: &mut MemSource) -> Result<usize, RunFault> {
    let mut heap = Heap::new(alloc);
    let mut out = sink(alloc, Vec::new(alloc));
    let answer = call_builtin(alloc, Builtin::Input, &[], &mut heap, input, &mut out)?;
    match &answer {
        Ok(Value::Str(text)) => Ok(text.len()),
        Ok(_) => Ok(1),
        Err(raised) => Ok(if raised.kind.is_same(ExcKind::MemoryError) {
            0
        } else {
            1
        }),
    }
}

#[test]
fn a_line_has_its_limit(rt: HostRuntime) {
    let alloc = rt.alloc();
    let bytes = long(alloc, 1_048_576, b"\nbc").expect(&rt, "memory");
    let mut input = MemSource::new(bytes, Vec::new(alloc));
    assert!(rt; line_length(alloc, &mut input) == Ok(1_048_576));
    assert!(rt; has_left(&mut input, b"bc"));
    let bytes = long(alloc, 1_048_578, b"\nbc").expect(&rt, "memory");
    let mut input = MemSource::new(bytes, Vec::new(alloc));
    assert!(rt; line_length(alloc, &mut input) == Ok(0));
    assert!(rt; has_left(&mut input, b"a\nbc"));
}

/// Prints a text, and then a list of the longest text, whose own text is too long.
fn print_too_much(alloc: Global, out: &mut MemSink) -> Result<bool, RunFault> {
    let mut heap = Heap::new(alloc);
    let mut input = source(alloc, &[], Vec::new(alloc))?;
    let mut characters = Text::new(alloc);
    for _turn in 0..1_048_576 {
        characters.push('a')?;
    }
    let mut items = Vec::new(alloc);
    items.push(Value::Str(characters))?;
    let mut args = Vec::new(alloc);
    args.push(Value::Str(Text::from_str(alloc, "first")?))?;
    args.push(Value::List(heap.make_list(items)?))?;
    match call_builtin(alloc, Builtin::Print, &args, &mut heap, &mut input, out)? {
        Ok(_) => Ok(false),
        Err(raised) => Ok(raised.kind.is_same(ExcKind::MemoryError)),
    }
}

#[test]
fn nothing_is_printed_where_a_text_is_too_long(rt: HostRuntime) {
    let alloc = rt.alloc();
    let mut out = sink(alloc, Vec::new(alloc));
    assert!(rt; print_too_much(alloc, &mut out) == Ok(true));
    assert!(rt; out.into_bytes().is_empty());
}

#[test]
fn kinds_make_exceptions(rt: HostRuntime) {
    let alloc = rt.alloc();
    let heap = Heap::new(alloc);
    let made = exception_of(alloc, ExcKind::KeyError, &[Value::Int(1)]).expect(&rt, "memory");
    match made {
        Ok(value) => assert!(rt; is_shown(alloc, &value, "KeyError(1)", &heap) == Ok(true)),
        Err(_) => panic!(rt; "raised"),
    }
    let args = [Value::Int(1), Value::Int(2)];
    let made = exception_of(alloc, ExcKind::KeyError, &args).expect(&rt, "memory");
    assert!(rt; made.is_err());
}
