//! Programs of several files, and programs that read their input or end by a status.

use crate::harness::{NONE, answer_to};
use std::test::Fail;

/// A script beside other files, with the input, and what must come of them.
struct Row {
    title: &'static str,
    script: &'static str,
    files: &'static [(&'static str, &'static str)],
    input: &'static str,
    out: &'static str,
    status: u8,
    err: &'static str,
    steps: u64,
}

static ROWS: [Row; 11] = [
    Row {
        title: "Ordinary use",
        script: "test_calc.py",
        files: &[
            (
                "test_calc.py",
                "import calc\n\ndef test_div():\n    assert calc.div(6, 3) == 2\n\nif __name__ == \"__main__\":\n    test_div()\n    print(\"ok\")\n",
            ),
            (
                "calc.py",
                "def div(a, b):\n    if b == 0:\n        return None\n    return a // b\n\ndef unused(x):\n    return x\n",
            ),
        ],
        input: "",
        out: "\
ok
calc.py -1 1
calc.py -1 2
calc.py 1 6
calc.py 2 4
calc.py 4 -1
calc.py 6 -1
test_calc.py -3 4
test_calc.py -1 1
test_calc.py 1 3
test_calc.py 3 6
test_calc.py 4 -3
test_calc.py 6 7
test_calc.py 7 8
test_calc.py 8 -1
",
        status: 0,
        err: "",
        steps: 14,
    },
    Row {
        title: "A script that imports itself: both modules have one path",
        script: "s.py",
        files: &[(
            "s.py",
            "import s\nif __name__ == \"s\":\n    print(\"module\")\nelse:\n    print(\"script\")\n",
        )],
        input: "",
        out: "\
module
script
s.py -1 1
s.py 1 2
s.py 2 3
s.py 2 5
s.py 3 -1
s.py 5 -1
",
        status: 0,
        err: "",
        steps: 8,
    },
    Row {
        title: "A module whose body raised is begun again",
        script: "s.py",
        files: &[
            (
                "s.py",
                "for k in (0, 1):\n    try:\n        import m\n    except KeyError:\n        print(k)\n",
            ),
            ("m.py", "print(\"begun\")\nraise KeyError\n"),
        ],
        input: "",
        out: "\
begun
0
begun
1
m.py -1 1
m.py 1 2
m.py 2 -1
s.py -1 1
s.py 1 -1
s.py 1 2
s.py 2 3
s.py 3 4
s.py 4 5
s.py 5 1
",
        status: 0,
        err: "",
        steps: 18,
    },
    Row {
        title: "A module that isn't begun has no arcs",
        script: "s.py",
        files: &[("s.py", "if 0:\n    import m\n"), ("m.py", "x = 1\n")],
        input: "",
        out: "s.py -1 1\ns.py 1 -1\n",
        status: 0,
        err: "",
        steps: 2,
    },
    Row {
        title: "A script in a folder",
        script: "d/s.py",
        files: &[
            ("d/s.py", "from m import x\nprint(x)\n"),
            ("m.py", "x = 1\n"),
            ("d/m.py", "x = 2\n"),
        ],
        input: "",
        out: "\
2
d/m.py -1 1
d/m.py 1 -1
d/s.py -1 1
d/s.py 1 2
d/s.py 2 -1
",
        status: 0,
        err: "",
        steps: 5,
    },
    Row {
        title: "Input, and its end",
        script: "s.py",
        files: &[("s.py", "print(input() + input())\ninput()\n")],
        input: "a\nb",
        out: "ab\ns.py -1 1\ns.py 1 2\ns.py 2 -1\n",
        status: 1,
        err: "EOFError: no input\n",
        steps: 3,
    },
    Row {
        title: "Input that is empty",
        script: "s.py",
        files: &[("s.py", "input()\n")],
        input: "",
        out: "s.py -1 1\ns.py 1 -1\n",
        status: 1,
        err: "EOFError: no input\n",
        steps: 2,
    },
    Row {
        title: "A status above 255",
        script: "s.py",
        files: &[("s.py", "import sys\nsys.exit(258)\n")],
        input: "",
        out: "s.py -1 1\ns.py 1 2\ns.py 2 -1\n",
        status: 2,
        err: "",
        steps: 3,
    },
    Row {
        title: "An exit that is raised without a value",
        script: "s.py",
        files: &[("s.py", "raise SystemExit\n")],
        input: "",
        out: "s.py -1 1\ns.py 1 -1\n",
        status: 0,
        err: "",
        steps: 2,
    },
    Row {
        title: "An exit with a text",
        script: "s.py",
        files: &[("s.py", "import sys\nsys.exit(\"x\")\n")],
        input: "",
        out: "s.py -1 1\ns.py 1 2\ns.py 2 -1\n",
        status: 1,
        err: "x\n",
        steps: 3,
    },
    Row {
        title: "An exception without a text",
        script: "s.py",
        files: &[("s.py", "raise ValueError\n")],
        input: "",
        out: "s.py -1 1\ns.py 1 -1\n",
        status: 1,
        err: "ValueError\n",
        steps: 2,
    },
];

/// Each row with just as many steps as it takes, and with one fewer.
#[test]
fn programs(rt: HostRuntime) -> Result<(), Fail> {
    let alloc = rt.alloc();
    for row in &ROWS {
        let enough = format!(in alloc; "arcs --budget={} {}", row.steps, row.script)?;
        let found = answer_to(alloc, enough.as_str(), row.files, row.input, NONE)?;
        assert_eq!(&rt; found.status, row.status, "{}", row.title);
        assert_eq!(&rt; found.out.as_str(), row.out, "{}", row.title);
        assert_eq!(&rt; found.err.as_str(), row.err, "{}", row.title);
        assert_eq!(&rt; found.left, 0, "{}", row.title);
        let fewer = row.steps.saturating_sub(1);
        let fewer = format!(in alloc; "arcs --budget={fewer} {}", row.script)?;
        let found = answer_to(alloc, fewer.as_str(), row.files, row.input, NONE)?;
        assert_eq!(&rt; found.status, 75, "{}", row.title);
    }
    Ok(())
}
