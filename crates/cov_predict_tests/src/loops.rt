// `while` and `for`.

use crate::rows::{Row, first_wrong};
use std::test::Fail;

static ROWS: [Row; 11] = [
    Row {
        title: "One-line endless loop",
        source: "while True: a = 1\n",
        lines: "1",
        predicted: "-1 1; 1 1",
        possible: "-1 1; 1 -1; 1 1",
        branches: "",
    },
    Row {
        title: "While 1",
        source: "while 1:\n    if a:\n        break\nprint(1)\n",
        lines: "1 2 3 4",
        predicted: "-1 1; 1 2; 2 1; 2 3; 3 4; 4 -1",
        possible: "-1 1; 1 -1; 1 2; 2 -1; 2 1; 2 3; 3 -1; 3 4; 4 -1",
        branches: "2 1; 2 3",
    },
    Row {
        title: "While 0",
        source: "while 0:\n    a = 1\nprint(1)\n",
        lines: "1 2 3",
        predicted: "-1 1; 1 2; 1 3; 2 1; 3 -1",
        possible: "-1 1; 1 -1; 1 2; 1 3; 2 -1; 2 1; 3 -1",
        branches: "1 2; 1 3",
    },
    Row {
        title: "While True in parentheses",
        source: "while (True):\n    a = 1\nprint(1)\n",
        lines: "1 2 3",
        predicted: "-1 1; 1 2; 1 3; 2 1; 3 -1",
        possible: "-1 1; 1 -1; 1 2; 1 3; 2 -1; 2 1; 3 -1",
        branches: "1 2; 1 3",
    },
    Row {
        title: "While False",
        source: "while False:\n    a = 1\nprint(1)\n",
        lines: "1 2 3",
        predicted: "-1 1; 1 2; 1 3; 2 1; 3 -1",
        possible: "-1 1; 1 -1; 1 2; 1 3; 2 -1; 2 1; 3 -1",
        branches: "1 2; 1 3",
    },
    Row {
        title: "Endless loop with else",
        source: "while True:\n    if a:\n        break\nelse:\n    b = 1\nprint(1)\n",
        lines: "1 2 3 5 6",
        predicted: "-1 1; 1 2; 2 1; 2 3; 3 6; 5 6; 6 -1",
        possible: "-1 1; 1 -1; 1 2; 2 -1; 2 1; 2 3; 3 -1; 3 6; 5 -1; 5 6; 6 -1",
        branches: "2 1; 2 3",
    },
    Row {
        title: "Break, continue and else",
        source: "while a:\n    if b:\n        break\n    if c:\n        continue\n    d = 1\nelse:\n    e = 1\nprint(1)\n",
        lines: "1 2 3 4 5 6 8 9",
        predicted: "-1 1; 1 2; 1 8; 2 3; 2 4; 3 9; 4 5; 4 6; 5 1; 6 1; 8 9; 9 -1",
        possible: "-1 1; 1 -1; 1 2; 1 8; 2 -1; 2 3; 2 4; 3 -1; 3 9; 4 -1; 4 5; 4 6; 5 -1; 5 1; 6 -1; 6 1; 8 -1; 8 9; 9 -1",
        branches: "1 2; 1 8; 2 3; 2 4; 4 5; 4 6",
    },
    Row {
        title: "For and else of one line",
        source: "for k in a: b = k\nelse: c = 1\nprint(1)\n",
        lines: "1 2 3",
        predicted: "-1 1; 1 1; 1 2; 2 3; 3 -1",
        possible: "-1 1; 1 -1; 1 1; 1 2; 2 -1; 2 3; 3 -1",
        branches: "1 1; 1 2",
    },
    Row {
        title: "Break in the else of a loop",
        source: "while a:\n    while b:\n        c = 1\n    else:\n        break\n    d = 1\nprint(1)\n",
        lines: "1 2 3 5 6 7",
        predicted: "-1 1; 1 2; 1 7; 2 3; 2 5; 3 2; 5 7; 6 1; 7 -1",
        possible: "-1 1; 1 -1; 1 2; 1 7; 2 -1; 2 3; 2 5; 3 -1; 3 2; 5 -1; 5 7; 6 -1; 6 1; 7 -1",
        branches: "1 2; 1 7; 2 3; 2 5",
    },
    Row {
        title: "Try in the else of a loop",
        source: "for k in a:\n    try:\n        b = 1\n    finally:\n        c = 1\nelse:\n    try:\n        d = 1\n    except KeyError:\n        e = 1\nprint(1)\n",
        lines: "1 2 3 5 7 8 9 10 11",
        predicted: "-1 1; 1 2; 1 7; 2 3; 3 5; 5 1; 7 8; 8 11; 9 10; 10 11; 11 -1",
        possible: "-1 1; 1 -1; 1 2; 1 7; 2 -1; 2 3; 3 5; 5 -1; 5 1; 7 -1; 7 8; 8 9; 8 11; 9 -1; 9 10; 10 -1; 10 11; 11 -1",
        branches: "1 2; 1 7",
    },
    Row {
        title: "Function in a loop",
        source: "for k in a:\n    def f():\n        return k\n    f()\n",
        lines: "1 2 3 4",
        predicted: "-2 3; -1 1; 1 -1; 1 2; 2 4; 3 -2; 4 1",
        possible: "-2 3; -1 1; 1 -1; 1 2; 2 -1; 2 4; 3 -2; 4 -1; 4 1",
        branches: "1 -1; 1 2",
    },
];

#[test]
fn prediction_of_loops(rt: HostRuntime) -> Result<(), Fail> {
    let wrong = first_wrong(rt.alloc(), &ROWS)?;
    assert_eq!(rt; wrong, "");
    Ok(())
}
