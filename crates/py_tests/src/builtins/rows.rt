// The rows.

use crate::literals::Lit::{self, Bool, Dict, Int, Str, TextTuple, Texts};
use py_value::{Builtin, ExcKind};

/// What a call answers: a value with this display, or an exception of this kind with this text.
#[derive(Clone, Copy)]
pub enum Want {
    Shows(&'static str),
    Raises(ExcKind, &'static str),
}

const WRONG_COUNT: Want = Want::Raises(ExcKind::TypeError, "wrong number of arguments");

const BAD_ARGUMENT: Want = Want::Raises(ExcKind::TypeError, "bad argument");

const BAD_LITERAL: Want = Want::Raises(ExcKind::ValueError, "invalid literal for int");

/// A call as Python writes it: a built-in called with these arguments, and what it answers.
pub struct Call(pub &'static str, pub Builtin, pub &'static [Lit], pub Want);

/// The same with an input, what is written, and the input that is left.
pub struct Talk(
    pub Call,
    pub &'static [u8],
    pub &'static str,
    pub &'static [u8],
);

pub static CALLS: [Call; 41] = [
    Call("len('aé')", Builtin::Len, &[Str("aé")], Want::Shows("2")),
    Call(
        "len(('a',))",
        Builtin::Len,
        &[TextTuple(&["a"])],
        Want::Shows("1"),
    ),
    Call("len([])", Builtin::Len, &[Texts(&[])], Want::Shows("0")),
    Call(
        "len({'a': 1, 'b': 2})",
        Builtin::Len,
        &[Dict(&[("a", 1), ("b", 2)])],
        Want::Shows("2"),
    ),
    Call("len(1)", Builtin::Len, &[Int(1)], BAD_ARGUMENT),
    Call("len()", Builtin::Len, &[], WRONG_COUNT),
    Call(
        "range(3)",
        Builtin::Range,
        &[Int(3)],
        Want::Shows("[0, 1, 2]"),
    ),
    Call(
        "range(2, 5)",
        Builtin::Range,
        &[Int(2), Int(5)],
        Want::Shows("[2, 3, 4]"),
    ),
    Call(
        "range(5, 0, -2)",
        Builtin::Range,
        &[Int(5), Int(0), Int(-2)],
        Want::Shows("[5, 3, 1]"),
    ),
    Call(
        "range(0, 7, 3)",
        Builtin::Range,
        &[Int(0), Int(7), Int(3)],
        Want::Shows("[0, 3, 6]"),
    ),
    Call(
        "range(5, 2)",
        Builtin::Range,
        &[Int(5), Int(2)],
        Want::Shows("[]"),
    ),
    Call(
        "range(True)",
        Builtin::Range,
        &[Bool(true)],
        Want::Shows("[0]"),
    ),
    Call(
        "range(9223372036854775805, 9223372036854775807, 2)",
        Builtin::Range,
        &[Int(9223372036854775805), Int(9223372036854775807), Int(2)],
        Want::Shows("[9223372036854775805]"),
    ),
    Call(
        "range(1, 2, 0)",
        Builtin::Range,
        &[Int(1), Int(2), Int(0)],
        Want::Raises(ExcKind::ValueError, "range step is zero"),
    ),
    Call("range('1')", Builtin::Range, &[Str("1")], BAD_ARGUMENT),
    Call(
        "range(9223372036854775807)",
        Builtin::Range,
        &[Int(9223372036854775807)],
        Want::Raises(ExcKind::MemoryError, ""),
    ),
    Call(
        "range(1, 2, 3, 4)",
        Builtin::Range,
        &[Int(1), Int(2), Int(3), Int(4)],
        WRONG_COUNT,
    ),
    Call("str(12)", Builtin::Str, &[Int(12)], Want::Shows("'12'")),
    Call("str('a')", Builtin::Str, &[Str("a")], Want::Shows("'a'")),
    Call("str()", Builtin::Str, &[], WRONG_COUNT),
    Call(
        "repr('a')",
        Builtin::Repr,
        &[Str("a")],
        Want::Shows("\"'a'\""),
    ),
    Call("repr(1, 2)", Builtin::Repr, &[Int(1), Int(2)], WRONG_COUNT),
    Call(
        "int(' \\t+12 ')",
        Builtin::Int,
        &[Str(" \t+12 ")],
        Want::Shows("12"),
    ),
    Call(
        "int('-007')",
        Builtin::Int,
        &[Str("-007")],
        Want::Shows("-7"),
    ),
    Call(
        "int('-9223372036854775808')",
        Builtin::Int,
        &[Str("-9223372036854775808")],
        Want::Shows("-9223372036854775808"),
    ),
    Call(
        "int('9223372036854775808')",
        Builtin::Int,
        &[Str("9223372036854775808")],
        Want::Raises(ExcKind::OverflowError, "integer too large"),
    ),
    Call(
        "int('-00018446744073709551616 ')",
        Builtin::Int,
        &[Str("-00018446744073709551616 ")],
        Want::Raises(ExcKind::OverflowError, "integer too large"),
    ),
    Call("int('')", Builtin::Int, &[Str("")], BAD_LITERAL),
    Call("int(' ')", Builtin::Int, &[Str(" ")], BAD_LITERAL),
    Call("int('+')", Builtin::Int, &[Str("+")], BAD_LITERAL),
    Call("int('1 2')", Builtin::Int, &[Str("1 2")], BAD_LITERAL),
    Call("int('1_0')", Builtin::Int, &[Str("1_0")], BAD_LITERAL),
    Call("int('\\n1')", Builtin::Int, &[Str("\n1")], BAD_LITERAL),
    Call("int('- 1')", Builtin::Int, &[Str("- 1")], BAD_LITERAL),
    Call(
        "int('99999999999999999999x')",
        Builtin::Int,
        &[Str("99999999999999999999x")],
        BAD_LITERAL,
    ),
    Call("int(True)", Builtin::Int, &[Bool(true)], Want::Shows("1")),
    Call("int(None)", Builtin::Int, &[Lit::None], BAD_ARGUMENT),
    Call("int()", Builtin::Int, &[], WRONG_COUNT),
    Call(
        "sys.exit()",
        Builtin::Exit,
        &[],
        Want::Raises(ExcKind::SystemExit, ""),
    ),
    Call(
        "sys.exit(258)",
        Builtin::Exit,
        &[Int(258)],
        Want::Raises(ExcKind::SystemExit, "258"),
    ),
    Call(
        "sys.exit(1, 2)",
        Builtin::Exit,
        &[Int(1), Int(2)],
        WRONG_COUNT,
    ),
];

pub static TALKS: [Talk; 10] = [
    Talk(
        Call("print()", Builtin::Print, &[], Want::Shows("None")),
        b"",
        "\n",
        b"",
    ),
    Talk(
        Call(
            "print('a', -4, None)",
            Builtin::Print,
            &[Str("a"), Int(-4), Lit::None],
            Want::Shows("None"),
        ),
        b"",
        "a -4 None\n",
        b"",
    ),
    Talk(
        Call(
            "print(['a', 'b'], ('c',))",
            Builtin::Print,
            &[Texts(&["a", "b"]), TextTuple(&["c"])],
            Want::Shows("None"),
        ),
        b"",
        "['a', 'b'] ('c',)\n",
        b"",
    ),
    Talk(
        Call(
            "print('é\u{1f600}')",
            Builtin::Print,
            &[Str("é\u{1f600}")],
            Want::Shows("None"),
        ),
        b"",
        "é\u{1f600}\n",
        b"",
    ),
    Talk(
        Call("input()", Builtin::Input, &[], Want::Shows("'ab'")),
        b"ab\ncd",
        "",
        b"cd",
    ),
    Talk(
        Call(
            "input('? ')",
            Builtin::Input,
            &[Str("? ")],
            Want::Shows("'ab'"),
        ),
        b"ab",
        "? ",
        b"",
    ),
    Talk(
        Call(
            "input(())",
            Builtin::Input,
            &[TextTuple(&[])],
            Want::Shows("''"),
        ),
        b"\n",
        "()",
        b"",
    ),
    Talk(
        Call(
            "input()",
            Builtin::Input,
            &[],
            Want::Raises(ExcKind::EOFError, "no input"),
        ),
        b"",
        "",
        b"",
    ),
    Talk(
        Call(
            "input()",
            Builtin::Input,
            &[],
            Want::Raises(ExcKind::ValueError, "input is not UTF-8"),
        ),
        b"a\xffb\nc",
        "",
        b"c",
    ),
    Talk(
        Call(
            "input(1, 2)",
            Builtin::Input,
            &[Int(1), Int(2)],
            WRONG_COUNT,
        ),
        b"ab\n",
        "",
        b"ab\n",
    ),
];
