// `try`, its clauses, `else` and `finally`.

use crate::rows::{Row, first_wrong};
use std::test::Fail;

static ROWS: [Row; 12] = [
    Row {
        title: "Raise in a function",
        source: "def f():\n    raise ValueError(\"no\")\nf()\n",
        lines: "1 2 3",
        predicted: "-1 1; -1 2; 1 3; 2 -1; 3 -1",
        possible: "-1 1; -1 2; 1 -1; 1 3; 2 -1; 3 -1",
        branches: "",
    },
    Row {
        title: "Raise in a try",
        source: "try:\n    raise ValueError(\"no\")\nexcept KeyError:\n    a = 1\nexcept ValueError:\n    a = 2\nprint(a)\n",
        lines: "1 2 3 4 5 6 7",
        predicted: "-1 1; 1 2; 2 3; 3 4; 3 5; 4 7; 5 6; 6 7; 7 -1",
        possible: "-1 1; 1 -1; 1 2; 2 3; 3 -1; 3 4; 3 5; 4 -1; 4 7; 5 -1; 5 6; 6 -1; 6 7; 7 -1",
        branches: "3 4; 3 5",
    },
    Row {
        title: "Bare clause",
        source: "try:\n    f()\nexcept KeyError:\n    a = 1\nexcept:\n    a = 2\nprint(a)\n",
        lines: "1 2 3 4 5 6 7",
        predicted: "-1 1; 1 2; 2 7; 3 4; 3 5; 4 7; 5 6; 6 7; 7 -1",
        possible: "-1 1; 1 -1; 1 2; 2 3; 2 7; 3 -1; 3 4; 3 5; 4 -1; 4 7; 5 -1; 5 6; 6 -1; 6 7; 7 -1",
        branches: "3 4; 3 5",
    },
    Row {
        title: "Else and finally",
        source: "try:\n    f()\nexcept KeyError:\n    a = 1\nelse:\n    a = 2\nfinally:\n    b = 3\nprint(a)\n",
        lines: "1 2 3 4 6 8 9",
        predicted: "-1 1; 1 2; 2 6; 3 4; 4 8; 6 8; 8 9; 9 -1",
        possible: "-1 1; 1 -1; 1 2; 2 3; 2 6; 3 4; 3 8; 4 8; 6 8; 8 -1; 8 9; 9 -1",
        branches: "",
    },
    Row {
        title: "Raise in a clause",
        source: "try:\n    f()\nexcept KeyError:\n    raise\nfinally:\n    b = 1\nprint(b)\n",
        lines: "1 2 3 4 6 7",
        predicted: "-1 1; 1 2; 2 6; 3 4; 4 6; 6 -1; 6 7; 7 -1",
        possible: "-1 1; 1 -1; 1 2; 2 3; 2 6; 3 4; 3 6; 4 6; 6 -1; 6 7; 7 -1",
        branches: "6 -1; 6 7",
    },
    Row {
        title: "Break through finally",
        source: "while a:\n    try:\n        break\n    finally:\n        b = 1\n    c = 1\nprint(1)\n",
        lines: "1 2 3 5 6 7",
        predicted: "-1 1; 1 2; 1 7; 2 3; 3 5; 5 7; 6 1; 7 -1",
        possible: "-1 1; 1 -1; 1 2; 1 7; 2 -1; 2 3; 3 5; 5 -1; 5 7; 6 -1; 6 1; 7 -1",
        branches: "1 2; 1 7",
    },
    Row {
        title: "Break and return through nested finally",
        source: "def f():\n    while a:\n        try:\n            try:\n                if b:\n                    break\n                return 1\n            finally:\n                c = 1\n        finally:\n            d = 1\n        e = 1\n    return 2\nf()\n",
        lines: "1 2 3 4 5 6 7 9 11 12 13 14",
        predicted: "-1 1; -1 2; 1 14; 2 3; 2 13; 3 4; 4 5; 5 6; 5 7; 6 9; 7 9; 9 11; 11 -1; 11 13; 12 2; 13 -1; 14 -1",
        possible: "-1 1; -1 2; 1 -1; 1 14; 2 -1; 2 3; 2 13; 3 -1; 3 4; 4 5; 4 11; 5 6; 5 7; 5 9; 6 9; 7 9; 9 11; 11 -1; 11 13; 12 -1; 12 2; 13 -1; 14 -1",
        branches: "2 3; 2 13; 5 6; 5 7; 11 -1; 11 13",
    },
    Row {
        title: "Break in a finally",
        source: "while a:\n    try:\n        raise ValueError(\"no\")\n    finally:\n        break\nprint(1)\n",
        lines: "1 2 3 5 6",
        predicted: "-1 1; 1 2; 1 6; 2 3; 3 5; 5 6; 6 -1",
        possible: "-1 1; 1 -1; 1 2; 1 6; 2 -1; 2 3; 3 5; 5 -1; 5 6; 6 -1",
        branches: "1 2; 1 6",
    },
    Row {
        title: "Return in a nested finally",
        source: "def f():\n    try:\n        try:\n            a = 1\n        finally:\n            return 2\n    finally:\n        b = 1\n    c = 1\nf()\n",
        lines: "1 2 3 4 6 8 9 10",
        predicted: "-1 1; -1 2; 1 10; 2 3; 3 4; 4 6; 6 8; 8 -1; 9 -1; 10 -1",
        possible: "-1 1; -1 2; 1 -1; 1 10; 2 -1; 2 3; 3 4; 3 8; 4 6; 6 8; 8 -1; 9 -1; 10 -1",
        branches: "",
    },
    Row {
        title: "Finally of global alone",
        source: "def f():\n    try:\n        return 1\n    finally:\n        global x\n    a = 1\nf()\n",
        lines: "1 2 3 6 7",
        predicted: "-1 1; -1 2; 1 7; 2 3; 3 -1; 6 -1; 7 -1",
        possible: "-1 1; -1 2; 1 -1; 1 7; 2 -1; 2 3; 3 -1; 6 -1; 7 -1",
        branches: "",
    },
    Row {
        title: "Try of global alone",
        source: "def f():\n    try:\n        global x\n    finally:\n        a = 1\n    b = 1\nf()\n",
        lines: "1 2 5 6 7",
        predicted: "-1 1; -1 2; 1 7; 2 5; 5 6; 6 -1; 7 -1",
        possible: "-1 1; -1 2; 1 -1; 1 7; 2 -1; 2 5; 5 -1; 5 6; 6 -1; 7 -1",
        branches: "",
    },
    Row {
        title: "Loop in a finally",
        source: "def f():\n    try:\n        return 1\n    finally:\n        for k in a:\n            if k:\n                continue\n            break\n    return 2\nf()\n",
        lines: "1 2 3 5 6 7 8 9 10",
        predicted: "-1 1; -1 2; 1 10; 2 3; 3 5; 5 -1; 5 6; 6 7; 6 8; 7 5; 8 -1; 9 -1; 10 -1",
        possible: "-1 1; -1 2; 1 -1; 1 10; 2 -1; 2 3; 3 5; 5 -1; 5 6; 6 -1; 6 7; 6 8; 7 -1; 7 5; 8 -1; 9 -1; 10 -1",
        branches: "5 -1; 5 6; 6 7; 6 8",
    },
];

#[test]
fn prediction_of_tries(rt: HostRuntime) -> Result<(), Fail> {
    let wrong = first_wrong(rt.alloc(), &ROWS)?;
    assert_eq!(rt; wrong, "");
    Ok(())
}
