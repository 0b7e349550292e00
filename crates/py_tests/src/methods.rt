// Rows of the table of methods. The expected values are those of the Python Standard Library
// Reference.

use crate::literals::Lit::{self, Bool, Dict, Int, Str, TextTuple, Texts};
use crate::literals::Want::{self, Gives, Raises};
use crate::literals::{UNHASHABLE, is_made, is_wanted, make};
use py_builtins::{call_method, has_method};
use py_value::{ExcKind, Heap, Method, Value};

const WRONG_COUNT: Want = Raises(ExcKind::TypeError, "wrong number of arguments");

const BAD_ARGUMENT: Want = Raises(ExcKind::TypeError, "bad argument");

const OUTSIDE: Want = Raises(ExcKind::IndexError, "pop index out of range");

/// A call as Python writes it; a method of a value, called with these arguments; what it answers,
/// and the value after it.
struct Call(&'static str, Method, Lit, &'static [Lit], Want, Lit);

static CALLS: [Call; 44] = [
    Call(
        "' a  bc\\n'.split()",
        Method::Split,
        Str(" a  bc\n"),
        &[],
        Gives(Texts(&["a", "bc"])),
        Str(" a  bc\n"),
    ),
    Call(
        "'a b'.split()",
        Method::Split,
        Str("a b"),
        &[],
        Gives(Texts(&["a", "b"])),
        Str("a b"),
    ),
    Call(
        "'\\t\\r\\n'.split()",
        Method::Split,
        Str("\t\r\n"),
        &[],
        Gives(Texts(&[])),
        Str("\t\r\n"),
    ),
    Call(
        "''.split()",
        Method::Split,
        Str(""),
        &[],
        Gives(Texts(&[])),
        Str(""),
    ),
    Call(
        "'é è'.split()",
        Method::Split,
        Str("é è"),
        &[],
        Gives(Texts(&["é", "è"])),
        Str("é è"),
    ),
    Call(
        "'a,,b,'.split(',')",
        Method::Split,
        Str("a,,b,"),
        &[Str(",")],
        Gives(Texts(&["a", "", "b", ""])),
        Str("a,,b,"),
    ),
    Call(
        "''.split(',')",
        Method::Split,
        Str(""),
        &[Str(",")],
        Gives(Texts(&[""])),
        Str(""),
    ),
    Call(
        "'aaa'.split('aa')",
        Method::Split,
        Str("aaa"),
        &[Str("aa")],
        Gives(Texts(&["", "a"])),
        Str("aaa"),
    ),
    Call(
        "'abab'.split('ba')",
        Method::Split,
        Str("abab"),
        &[Str("ba")],
        Gives(Texts(&["a", "b"])),
        Str("abab"),
    ),
    Call(
        "' a '.split(' ')",
        Method::Split,
        Str(" a "),
        &[Str(" ")],
        Gives(Texts(&["", "a", ""])),
        Str(" a "),
    ),
    Call(
        "'a'.split('')",
        Method::Split,
        Str("a"),
        &[Str("")],
        Raises(ExcKind::ValueError, "empty separator"),
        Str("a"),
    ),
    Call(
        "'a'.split(None)",
        Method::Split,
        Str("a"),
        &[Lit::None],
        BAD_ARGUMENT,
        Str("a"),
    ),
    Call(
        "'a'.split('a', 1)",
        Method::Split,
        Str("a"),
        &[Str("a"), Int(1)],
        WRONG_COUNT,
        Str("a"),
    ),
    Call(
        "', '.join(['a', 'b', 'c'])",
        Method::Join,
        Str(", "),
        &[Texts(&["a", "b", "c"])],
        Gives(Str("a, b, c")),
        Str(", "),
    ),
    Call(
        "'-'.join(('x',))",
        Method::Join,
        Str("-"),
        &[TextTuple(&["x"])],
        Gives(Str("x")),
        Str("-"),
    ),
    Call(
        "'-'.join([])",
        Method::Join,
        Str("-"),
        &[Texts(&[])],
        Gives(Str("")),
        Str("-"),
    ),
    Call(
        "''.join(('é', '', 'b'))",
        Method::Join,
        Str(""),
        &[TextTuple(&["é", "", "b"])],
        Gives(Str("éb")),
        Str(""),
    ),
    Call(
        "'-'.join('ab')",
        Method::Join,
        Str("-"),
        &[Str("ab")],
        BAD_ARGUMENT,
        Str("-"),
    ),
    Call(
        "'-'.join({'a': 1})",
        Method::Join,
        Str("-"),
        &[Dict(&[("a", 1)])],
        BAD_ARGUMENT,
        Str("-"),
    ),
    Call(
        "'-'.join()",
        Method::Join,
        Str("-"),
        &[],
        WRONG_COUNT,
        Str("-"),
    ),
    Call(
        "'abc'.startswith('ab')",
        Method::StartsWith,
        Str("abc"),
        &[Str("ab")],
        Gives(Bool(true)),
        Str("abc"),
    ),
    Call(
        "'abc'.startswith('')",
        Method::StartsWith,
        Str("abc"),
        &[Str("")],
        Gives(Bool(true)),
        Str("abc"),
    ),
    Call(
        "'a'.startswith('ab')",
        Method::StartsWith,
        Str("a"),
        &[Str("ab")],
        Gives(Bool(false)),
        Str("a"),
    ),
    Call(
        "'ba'.startswith('a')",
        Method::StartsWith,
        Str("ba"),
        &[Str("a")],
        Gives(Bool(false)),
        Str("ba"),
    ),
    Call(
        "'a'.startswith(1)",
        Method::StartsWith,
        Str("a"),
        &[Int(1)],
        BAD_ARGUMENT,
        Str("a"),
    ),
    Call(
        "['a'].append('b')",
        Method::Append,
        Texts(&["a"]),
        &[Str("b")],
        Gives(Lit::None),
        Texts(&["a", "b"]),
    ),
    Call(
        "['a'].append()",
        Method::Append,
        Texts(&["a"]),
        &[],
        WRONG_COUNT,
        Texts(&["a"]),
    ),
    Call(
        "['a', 'b', 'c'].pop()",
        Method::Pop,
        Texts(&["a", "b", "c"]),
        &[],
        Gives(Str("c")),
        Texts(&["a", "b"]),
    ),
    Call(
        "['a', 'b', 'c'].pop(0)",
        Method::Pop,
        Texts(&["a", "b", "c"]),
        &[Int(0)],
        Gives(Str("a")),
        Texts(&["b", "c"]),
    ),
    Call(
        "['a', 'b', 'c'].pop(-2)",
        Method::Pop,
        Texts(&["a", "b", "c"]),
        &[Int(-2)],
        Gives(Str("b")),
        Texts(&["a", "c"]),
    ),
    Call(
        "['a', 'b', 'c'].pop(True)",
        Method::Pop,
        Texts(&["a", "b", "c"]),
        &[Bool(true)],
        Gives(Str("b")),
        Texts(&["a", "c"]),
    ),
    Call(
        "['a'].pop(1)",
        Method::Pop,
        Texts(&["a"]),
        &[Int(1)],
        OUTSIDE,
        Texts(&["a"]),
    ),
    Call(
        "['a'].pop(-2)",
        Method::Pop,
        Texts(&["a"]),
        &[Int(-2)],
        OUTSIDE,
        Texts(&["a"]),
    ),
    Call(
        "[].pop()",
        Method::Pop,
        Texts(&[]),
        &[],
        OUTSIDE,
        Texts(&[]),
    ),
    Call(
        "['a'].pop('0')",
        Method::Pop,
        Texts(&["a"]),
        &[Str("0")],
        BAD_ARGUMENT,
        Texts(&["a"]),
    ),
    Call(
        "{'a': 1, 'b': 2}.pop('a')",
        Method::Pop,
        Dict(&[("a", 1), ("b", 2)]),
        &[Str("a")],
        Gives(Int(1)),
        Dict(&[("b", 2)]),
    ),
    Call(
        "{'a': 1}.pop('b')",
        Method::Pop,
        Dict(&[("a", 1)]),
        &[Str("b")],
        Raises(ExcKind::KeyError, "b"),
        Dict(&[("a", 1)]),
    ),
    Call(
        "{'a': 1}.pop('b', 9)",
        Method::Pop,
        Dict(&[("a", 1)]),
        &[Str("b"), Int(9)],
        Gives(Int(9)),
        Dict(&[("a", 1)]),
    ),
    Call(
        "{'a': 1}.pop(True, 9)",
        Method::Pop,
        Dict(&[("a", 1)]),
        &[Bool(true), Int(9)],
        UNHASHABLE,
        Dict(&[("a", 1)]),
    ),
    Call(
        "{'a': 1}.get('a')",
        Method::Get,
        Dict(&[("a", 1)]),
        &[Str("a")],
        Gives(Int(1)),
        Dict(&[("a", 1)]),
    ),
    Call(
        "{'a': 1}.get('b')",
        Method::Get,
        Dict(&[("a", 1)]),
        &[Str("b")],
        Gives(Lit::None),
        Dict(&[("a", 1)]),
    ),
    Call(
        "{'a': 1}.get('b', 9)",
        Method::Get,
        Dict(&[("a", 1)]),
        &[Str("b"), Int(9)],
        Gives(Int(9)),
        Dict(&[("a", 1)]),
    ),
    Call(
        "{'b': 2, 'a': 1}.keys()",
        Method::Keys,
        Dict(&[("b", 2), ("a", 1)]),
        &[],
        Gives(Texts(&["b", "a"])),
        Dict(&[("a", 1), ("b", 2)]),
    ),
    Call(
        "['a'].keys()",
        Method::Keys,
        Texts(&["a"]),
        &[],
        Raises(ExcKind::AttributeError, "no attribute 'keys'"),
        Texts(&["a"]),
    ),
];

#[test]
fn methods_answer_as_the_table_says(rt: HostRuntime) {
    for call in &CALLS {
        let alloc = rt.alloc();
        let mut heap = Heap::new(alloc);
        let on = make(alloc, call.2, &mut heap).expect(&rt, "memory");
        let mut args = Vec::new(alloc);
        for arg in call.3 {
            let arg = make(alloc, *arg, &mut heap).expect(&rt, "memory");
            args.push(arg).expect(&rt, "memory");
        }
        let answer = call_method(alloc, call.1, &on, &args, &mut heap).expect(&rt, "memory");
        assert!(rt; is_wanted(&answer, call.4, &heap), "{}", call.0);
        assert!(rt; is_made(&on, call.5, &heap), "{}", call.0);
    }
}

#[test]
fn numbers_have_no_methods(rt: HostRuntime) {
    assert!(rt; !has_method(Method::Append, &Value::Int(1)));
    let mut heap = Heap::new(rt.alloc());
    let list = make(rt.alloc(), Texts(&[]), &mut heap).expect(&rt, "memory");
    assert!(rt; has_method(Method::Pop, &list) && !has_method(Method::Keys, &list));
}
