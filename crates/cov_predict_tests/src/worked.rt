// The worked rows of the documents.

use crate::rows::{Row, first_wrong};
use std::test::Fail;

static ROWS: [Row; 12] = [
    Row {
        title: "First run",
        source: "x = 1\nif x:\n    print(x)\nelse:\n    print(0)\n",
        lines: "1 2 3 5",
        predicted: "-1 1; 1 2; 2 3; 2 5; 3 -1; 5 -1",
        possible: "-1 1; 1 -1; 1 2; 2 -1; 2 3; 2 5; 3 -1; 5 -1",
        branches: "2 3; 2 5",
    },
    Row {
        title: "Empty file",
        source: "",
        lines: "",
        predicted: "-1 -1",
        possible: "-1 -1",
        branches: "",
    },
    Row {
        title: "Docstring alone",
        source: "x = 0\ndef f():\n    \"\"\"doc\"\"\"\nf()\n",
        lines: "1 2 4",
        predicted: "-2 -2; -1 1; 1 2; 2 4; 4 -1",
        possible: "-2 -2; -1 1; 1 -1; 1 2; 2 -1; 2 4; 4 -1",
        branches: "",
    },
    Row {
        title: "One-line loop",
        source: "n = 3\nwhile n: n = n - 1\n",
        lines: "1 2",
        predicted: "-1 1; 1 2; 2 -1; 2 2",
        possible: "-1 1; 1 -1; 1 2; 2 -1; 2 2",
        branches: "2 -1; 2 2",
    },
    Row {
        title: "Loop else",
        source: "for k in range(3):\n    for j in range(2):\n        if j == k:\n            break\n    else:\n        print(k)\nprint(9)\n",
        lines: "1 2 3 4 6 7",
        predicted: "-1 1; 1 2; 1 7; 2 3; 2 6; 3 2; 3 4; 4 1; 6 1; 7 -1",
        possible: "-1 1; 1 -1; 1 2; 1 7; 2 -1; 2 3; 2 6; 3 -1; 3 2; 3 4; 4 -1; 4 1; 6 -1; 6 1; 7 -1",
        branches: "1 2; 1 7; 2 3; 2 6; 3 2; 3 4",
    },
    Row {
        title: "Two returns",
        source: "v = 0\ndef f():\n    try:\n        return 1\n    finally:\n        return 2\nprint(f())\n",
        lines: "1 2 3 4 6 7",
        predicted: "-2 3; -1 1; 1 2; 2 7; 3 4; 4 6; 6 -2; 7 -1",
        possible: "-2 3; -1 1; 1 -1; 1 2; 2 -1; 2 7; 3 -2; 3 4; 4 6; 6 -2; 7 -1",
        branches: "",
    },
    Row {
        title: "Handlers",
        source: "try:\n    x = 1 // 0\nexcept KeyError:\n    print(1)\nexcept ZeroDivisionError:\n    print(2)\nprint(3)\n",
        lines: "1 2 3 4 5 6 7",
        predicted: "-1 1; 1 2; 2 7; 3 4; 3 5; 4 7; 5 6; 6 7; 7 -1",
        possible: "-1 1; 1 -1; 1 2; 2 3; 2 7; 3 -1; 3 4; 3 5; 4 -1; 4 7; 5 -1; 5 6; 6 -1; 6 7; 7 -1",
        branches: "3 4; 3 5",
    },
    Row {
        title: "Continue through finally",
        source: "for k in range(2):\n    try:\n        continue\n    finally:\n        print(k)\nprint(9)\n",
        lines: "1 2 3 5 6",
        predicted: "-1 1; 1 2; 1 6; 2 3; 3 5; 5 1; 6 -1",
        possible: "-1 1; 1 -1; 1 2; 1 6; 2 -1; 2 3; 3 5; 5 -1; 5 1; 6 -1",
        branches: "1 2; 1 6",
    },
    Row {
        title: "Endless loop",
        source: "while True:\n    pass\n",
        lines: "1 2",
        predicted: "-1 1; 1 2; 2 1",
        possible: "-1 1; 1 -1; 1 2; 2 -1; 2 1",
        branches: "",
    },
    Row {
        title: "Match",
        source: "def f(v):\n    match v:\n        case 0:\n            return 1\n        case [a, b] if a // b:\n            return 2\n        case _:\n            return 3\nprint(f(0), f([4, 2]), f(\"ab\"))\nf([1, 0])\n",
        lines: "1 2 3 4 5 6 7 8 9 10",
        predicted: "-1 1; -1 2; 1 9; 2 3; 3 4; 3 5; 4 -1; 5 6; 5 7; 6 -1; 7 8; 8 -1; 9 10; 10 -1",
        possible: "-1 1; -1 2; 1 -1; 1 9; 2 -1; 2 3; 3 -1; 3 4; 3 5; 4 -1; 5 -1; 5 6; 5 7; 6 -1; 7 -1; 7 8; 8 -1; 9 -1; 9 10; 10 -1",
        branches: "3 4; 3 5; 5 6; 5 7",
    },
    Row {
        title: "Pragma",
        source: "debug = False\nif debug:  # pragma: no cover\n    print(1)\nelse:\n    print(2)\nwhile True:\n    break\n",
        lines: "1 2 3 5 6 7",
        predicted: "-1 1; 1 2; 2 3; 2 5; 3 6; 5 6; 6 7; 7 -1",
        possible: "-1 1; 1 -1; 1 2; 2 -1; 2 3; 2 5; 3 -1; 3 6; 5 -1; 5 6; 6 -1; 6 7; 7 -1",
        branches: "2 3; 2 5",
    },
    Row {
        title: "Two try in a loop",
        source: "n = 0\ndef f():\n    for k in (0, 1):\n        try:\n            try:\n                n // k\n            finally:\n                print(\"f\", k)\n        except ZeroDivisionError:\n            continue\n        else:\n            return k\nprint(f())\n",
        lines: "1 2 3 4 5 6 8 9 10 12 13",
        predicted: "-2 3; -1 1; 1 2; 2 13; 3 -2; 3 4; 4 5; 5 6; 6 8; 8 12; 9 10; 10 3; 12 -2; 13 -1",
        possible: "-2 3; -1 1; 1 -1; 1 2; 2 -1; 2 13; 3 -2; 3 4; 4 -2; 4 5; 5 6; 5 9; 6 8; 8 9; 8 12; 9 -2; 9 10; 10 -2; 10 3; 12 -2; 13 -1",
        branches: "3 -2; 3 4",
    },
];

#[test]
fn prediction_of_worked_rows(rt: HostRuntime) -> Result<(), Fail> {
    let wrong = first_wrong(rt.alloc(), &ROWS)?;
    assert_eq!(rt; wrong, "");
    Ok(())
}
