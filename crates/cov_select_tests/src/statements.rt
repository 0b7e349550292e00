// Statements of each kind that change.

use crate::rows::{Row, first_wrong};
use std::test::Fail;

const ROWS: [Row; 16] = [
    Row {
        title: "Docstring before a statement",
        old: "def test_a():\n    \"d\"\n    pass\n",
        new: "def test_a():\n    print(2)\n    pass\n",
        before: "3",
        after: "2 3",
        fits: true,
    },
    Row {
        title: "Another docstring",
        old: "\"a\"\nx = 1\n",
        new: "\"b\"\nx = 1\n",
        before: "",
        after: "",
        fits: true,
    },
    Row {
        title: "Another docstring alone",
        old: "\"a\"\n",
        new: "\"b\"\n",
        before: "",
        after: "",
        fits: false,
    },
    Row {
        title: "Else that goes",
        old: "if x:\n    y = 1\nelse:\n    y = 2\nz = 3\n",
        new: "if x:\n    y = 1\n\n\nz = 3\n",
        before: "1 2 4",
        after: "1 2",
        fits: true,
    },
    Row {
        title: "Test of an if",
        old: "if x:\n    y = 1\nelif z:\n    y = 2\n",
        new: "if x:\n    y = 1\nelif w:\n    y = 2\n",
        before: "3",
        after: "3",
        fits: true,
    },
    Row {
        title: "Statement more in a suite",
        old: "while x:\n    y = 1\nz = 2\n",
        new: "while x:\n    y = 1; a = 2\nz = 2\n",
        before: "2",
        after: "2",
        fits: true,
    },
    Row {
        title: "Loop of another kind",
        old: "a = 1\nwhile x:\n    y = 1\n",
        new: "a = 1\nfor x in z:\n    y = 1\n",
        before: "1 2 3",
        after: "1 2 3",
        fits: true,
    },
    Row {
        title: "Names in another line",
        old: "def f():\n    global a\n    a = 1\n",
        new: "def f():\n    global b\n    a = 1\n",
        before: "3",
        after: "3",
        fits: true,
    },
    Row {
        title: "New local name",
        old: "def f(x):\n    if x:\n        x = 1\n    return x\n",
        new: "def f(x):\n    if x:\n        y = 1\n    return x\n",
        before: "2 3 4",
        after: "2 3 4",
        fits: true,
    },
    Row {
        title: "Another parameter",
        old: "def f(x):\n    return 1\nf(2)\n",
        new: "def f(y):\n    return 1\nf(2)\n",
        before: "1 2 3",
        after: "1 2 3",
        fits: true,
    },
    Row {
        title: "Another default",
        old: "def f(x=1):\n    return x\n",
        new: "def f(x=2):\n    return x\n",
        before: "1",
        after: "1",
        fits: true,
    },
    Row {
        title: "Another name",
        old: "def f():\n    return 1\ndef g():\n    return 2\n",
        new: "def g():\n    return 1\ndef f():\n    return 2\n",
        before: "1 2 3 4",
        after: "1 2 3 4",
        fits: true,
    },
    Row {
        title: "Lines that move",
        old: "def f():\n    return 1\nx = 1\n",
        new: "x = 1\ndef f():\n    return 1\n",
        before: "1 2 3",
        after: "1 2 3",
        fits: true,
    },
    Row {
        title: "Clause and case",
        old: "try:\n    x()\nexcept A as e:\n    match e:\n        case [1, y]:\n            z = y\n",
        new: "try:\n    x()\nexcept B as e:\n    match e:\n        case [2, y]:\n            z = y\n",
        before: "3 5",
        after: "3 5",
        fits: true,
    },
    Row {
        title: "Finally that comes",
        old: "try:\n    x()\nexcept A:\n    y()\n",
        new: "try:\n    x()\nexcept A:\n    y()\nfinally:\n    z()\n",
        before: "1 2 3 4",
        after: "1 2 3 4 6",
        fits: true,
    },
    Row {
        title: "Two changes",
        old: "x = 1\ny = [1, 2]\nz = f\"{x}\"\n",
        new: "x = 1\ny = [1, 2,]\nz = f\"{y}\"\n",
        before: "2 3",
        after: "2 3",
        fits: true,
    },
];

#[test]
fn changed_lines_of_statements(rt: HostRuntime) -> Result<(), Fail> {
    let wrong = first_wrong(rt.alloc(), &ROWS)?;
    assert_eq!(rt; wrong, "");
    Ok(())
}
