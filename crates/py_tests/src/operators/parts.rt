// Rows of indexes, slices and truth. A row's title is the expression as Python writes it, where
// `least` and `most` are the ends of the whole numbers.

use crate::literals::Lit::{self, Bool, Dict, Int, List, Str, Tuple};
use crate::literals::Want::{self, Gives, Raises};
use crate::literals::{LEAST, MOST, UNHASHABLE};
use py_value::ExcKind;

const NOT_SUBSCRIPTABLE: Want = Raises(ExcKind::TypeError, "not subscriptable");

/// `of[at]`.
pub struct At(pub &'static str, pub Lit, pub Lit, pub Want);

/// `of[from:to]`.
pub struct Part(
    pub &'static str,
    pub Lit,
    pub Option<i64>,
    pub Option<i64>,
    pub Want,
);

pub static INDEXED: [At; 17] = [
    At(
        "[10, 20, 30][0]",
        List(&[10, 20, 30]),
        Int(0),
        Gives(Int(10)),
    ),
    At(
        "[10, 20, 30][-1]",
        List(&[10, 20, 30]),
        Int(-1),
        Gives(Int(30)),
    ),
    At(
        "[10][1]",
        List(&[10]),
        Int(1),
        Raises(ExcKind::IndexError, "list index out of range"),
    ),
    At(
        "[10][-2]",
        List(&[10]),
        Int(-2),
        Raises(ExcKind::IndexError, "list index out of range"),
    ),
    At(
        "[10, 20][True]",
        List(&[10, 20]),
        Bool(true),
        Gives(Int(20)),
    ),
    At("(10, 20)[1]", Tuple(&[10, 20]), Int(1), Gives(Int(20))),
    At(
        "(10,)[1]",
        Tuple(&[10]),
        Int(1),
        Raises(ExcKind::IndexError, "tuple index out of range"),
    ),
    At("'héllo'[1]", Str("héllo"), Int(1), Gives(Str("é"))),
    At("'abc'[-3]", Str("abc"), Int(-3), Gives(Str("a"))),
    At(
        "'abc'[3]",
        Str("abc"),
        Int(3),
        Raises(ExcKind::IndexError, "string index out of range"),
    ),
    At("[1]['a']", List(&[1]), Str("a"), NOT_SUBSCRIPTABLE),
    At("5[0]", Int(5), Int(0), NOT_SUBSCRIPTABLE),
    At("[1][None]", List(&[1]), Lit::None, NOT_SUBSCRIPTABLE),
    At("{'a': 1}['a']", Dict(&[("a", 1)]), Str("a"), Gives(Int(1))),
    At(
        "{'a': 1}['b']",
        Dict(&[("a", 1)]),
        Str("b"),
        Raises(ExcKind::KeyError, "b"),
    ),
    At("{'a': 1}[[1]]", Dict(&[("a", 1)]), List(&[1]), UNHASHABLE),
    At("{'a': 1}[True]", Dict(&[("a", 1)]), Bool(true), UNHASHABLE),
];

pub static SLICED: [Part; 14] = [
    Part(
        "[1, 2, 3][1:2]",
        List(&[1, 2, 3]),
        Some(1),
        Some(2),
        Gives(List(&[2])),
    ),
    Part(
        "[1, 2, 3][:]",
        List(&[1, 2, 3]),
        None,
        None,
        Gives(List(&[1, 2, 3])),
    ),
    Part(
        "[1, 2, 3][-2:]",
        List(&[1, 2, 3]),
        Some(-2),
        None,
        Gives(List(&[2, 3])),
    ),
    Part(
        "[1, 2, 3][:-1]",
        List(&[1, 2, 3]),
        None,
        Some(-1),
        Gives(List(&[1, 2])),
    ),
    Part(
        "[1, 2, 3][5:9]",
        List(&[1, 2, 3]),
        Some(5),
        Some(9),
        Gives(List(&[])),
    ),
    Part(
        "[1, 2, 3][2:1]",
        List(&[1, 2, 3]),
        Some(2),
        Some(1),
        Gives(List(&[])),
    ),
    Part(
        "[1, 2, 3][-9:2]",
        List(&[1, 2, 3]),
        Some(-9),
        Some(2),
        Gives(List(&[1, 2])),
    ),
    Part(
        "[1, 2, 3][least:most]",
        List(&[1, 2, 3]),
        Some(LEAST),
        Some(MOST),
        Gives(List(&[1, 2, 3])),
    ),
    Part(
        "(1, 2, 3)[1:]",
        Tuple(&[1, 2, 3]),
        Some(1),
        None,
        Gives(Tuple(&[2, 3])),
    ),
    Part(
        "'hello'[1:3]",
        Str("hello"),
        Some(1),
        Some(3),
        Gives(Str("el")),
    ),
    Part(
        "'hello'[-3:-1]",
        Str("hello"),
        Some(-3),
        Some(-1),
        Gives(Str("ll")),
    ),
    Part("'héllo'[:2]", Str("héllo"), None, Some(2), Gives(Str("hé"))),
    Part("5[:]", Int(5), None, None, NOT_SUBSCRIPTABLE),
    Part("{}[:]", Dict(&[]), None, None, NOT_SUBSCRIPTABLE),
];

pub static TRUTHS: [(&str, Lit, bool); 13] = [
    ("None", Lit::None, false),
    ("False", Bool(false), false),
    ("True", Bool(true), true),
    ("0", Int(0), false),
    ("-1", Int(-1), true),
    ("''", Str(""), false),
    ("'a'", Str("a"), true),
    ("()", Tuple(&[]), false),
    ("(0,)", Tuple(&[0]), true),
    ("[]", List(&[]), false),
    ("[0]", List(&[0]), true),
    ("{}", Dict(&[]), false),
    ("{'a': 0}", Dict(&[("a", 0)]), true),
];
