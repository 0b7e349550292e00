// `if`, functions, simple statements and suites that mark nothing.

use crate::rows::{Row, first_wrong};
use std::test::Fail;

static ROWS: [Row; 12] = [
    Row {
        title: "Elif",
        source: "if a:\n    b = 1\nelif c:\n    b = 2\nelif d:\n    b = 3\nprint(b)\n",
        lines: "1 2 3 4 5 6 7",
        predicted: "-1 1; 1 2; 1 3; 2 7; 3 4; 3 5; 4 7; 5 6; 5 7; 6 7; 7 -1",
        possible: "-1 1; 1 -1; 1 2; 1 3; 2 -1; 2 7; 3 -1; 3 4; 3 5; 4 -1; 4 7; 5 -1; 5 6; 5 7; 6 -1; 6 7; 7 -1",
        branches: "1 2; 1 3; 3 4; 3 5; 5 6; 5 7",
    },
    Row {
        title: "Suite of a docstring",
        source: "if a:\n    \"text\"\nprint(1)\n",
        lines: "1 2 3",
        predicted: "-1 1; 1 2; 1 3; 2 3; 3 -1",
        possible: "-1 1; 1 -1; 1 2; 1 3; 2 -1; 2 3; 3 -1",
        branches: "1 2; 1 3",
    },
    Row {
        title: "Suite of global alone",
        source: "def f():\n    if a:\n        global x\n    x = 1\n",
        lines: "1 2 4",
        predicted: "-1 1; -1 2; 1 -1; 2 4; 4 -1",
        possible: "-1 1; -1 2; 1 -1; 2 -1; 2 4; 4 -1",
        branches: "",
    },
    Row {
        title: "Function of global alone",
        source: "def f():\n    global x\nf()\n",
        lines: "1 3",
        predicted: "-1 -1; -1 1; 1 3; 3 -1",
        possible: "-1 -1; -1 1; 1 -1; 1 3; 3 -1",
        branches: "",
    },
    Row {
        title: "Function of a docstring and global",
        source: "def f():\n    \"text\"\n    global x\nf()\n",
        lines: "1 4",
        predicted: "-1 -1; -1 1; 1 4; 4 -1",
        possible: "-1 -1; -1 1; 1 -1; 1 4; 4 -1",
        branches: "",
    },
    Row {
        title: "Else of global alone",
        source: "def f():\n    if a:\n        b = 1\n    else:\n        global x\n    return b\n",
        lines: "1 2 3 6",
        predicted: "-1 1; -1 2; 1 -1; 2 3; 2 6; 3 6; 6 -1",
        possible: "-1 1; -1 2; 1 -1; 2 -1; 2 3; 2 6; 3 -1; 3 6; 6 -1",
        branches: "2 3; 2 6",
    },
    Row {
        title: "Loop of global alone",
        source: "def f():\n    while a:\n        global x\n    return 1\n",
        lines: "1 2 4",
        predicted: "-1 1; -1 2; 1 -1; 2 2; 2 4; 4 -1",
        possible: "-1 1; -1 2; 1 -1; 2 -1; 2 2; 2 4; 4 -1",
        branches: "2 2; 2 4",
    },
    Row {
        title: "One-line function",
        source: "def f(): return 1\nf()\n",
        lines: "1 2",
        predicted: "-1 1; 1 -1; 1 2; 2 -1",
        possible: "-1 1; 1 -1; 1 2; 2 -1",
        branches: "1 -1; 1 2",
    },
    Row {
        title: "One-line function of two statements",
        source: "def f(): a = 1; return a\nf()\n",
        lines: "1 2",
        predicted: "-1 1; 1 -1; 1 2; 2 -1",
        possible: "-1 1; 1 -1; 1 2; 2 -1",
        branches: "1 -1; 1 2",
    },
    Row {
        title: "One-line test",
        source: "if a: b = 1\nprint(b)\n",
        lines: "1 2",
        predicted: "-1 1; 1 2; 2 -1",
        possible: "-1 1; 1 -1; 1 2; 2 -1",
        branches: "",
    },
    Row {
        title: "Other simple statements",
        source: "import m\nfrom m import x\nassert x\nx += 1\nraise\n",
        lines: "1 2 3 4 5",
        predicted: "-1 1; 1 2; 2 3; 3 4; 4 5; 5 -1",
        possible: "-1 1; 1 -1; 1 2; 2 -1; 2 3; 3 -1; 3 4; 4 -1; 4 5; 5 -1",
        branches: "",
    },
    Row {
        title: "Statement after return",
        source: "def f():\n    return 1\n    a = 2\nf()\n",
        lines: "1 2 3 4",
        predicted: "-1 1; -1 2; 1 4; 2 -1; 3 -1; 4 -1",
        possible: "-1 1; -1 2; 1 -1; 1 4; 2 -1; 3 -1; 4 -1",
        branches: "",
    },
];

#[test]
fn prediction_of_suites(rt: HostRuntime) -> Result<(), Fail> {
    let wrong = first_wrong(rt.alloc(), &ROWS)?;
    assert_eq!(rt; wrong, "");
    Ok(())
}
