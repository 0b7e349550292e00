//! The worked rows of statements, loops, functions, handlers and `match`.

use crate::rows::{Row, assert_row};
use std::test::Fail;

static ROWS: [Row; 20] = [
    Row {
        title: "First run",
        source: "\
x = 1
if x:
    print(x)
else:
    print(0)
",
        out: "1\n",
        arcs: "-1 1; 1 2; 2 3; 3 -1",
        status: 0,
        err: "",
        steps: 4,
    },
    Row {
        title: "Empty file",
        source: "",
        out: "",
        arcs: "-1 -1",
        status: 0,
        err: "",
        steps: 1,
    },
    Row {
        title: "Numbers",
        source: "x = 0\nif x:\n    print(x)\n",
        out: "",
        arcs: "-1 1; 1 2; 2 -1",
        status: 0,
        err: "",
        steps: 3,
    },
    Row {
        title: "Docstring alone",
        source: "\
x = 0
def f():
    '''doc'''
f()
",
        out: "",
        arcs: "-2 -2; -1 1; 1 2; 2 4; 4 -1",
        status: 0,
        err: "",
        steps: 5,
    },
    Row {
        title: "One-line loop",
        source: "\
n = 3
while n: n = n - 1
",
        out: "",
        arcs: "-1 1; 1 2; 2 -1; 2 2",
        status: 0,
        err: "",
        steps: 9,
    },
    Row {
        title: "Loop else",
        source: "\
for k in range(3):
    for j in range(2):
        if j == k:
            break
    else:
        print(k)
print(9)
",
        out: "\
2
9
",
        arcs: "-1 1; 1 2; 1 7; 2 3; 2 6; 3 2; 3 4; 4 1; 6 1; 7 -1",
        status: 0,
        err: "",
        steps: 20,
    },
    Row {
        title: "Two returns",
        source: "\
v = 0
def f():
    try:
        return 1
    finally:
        return 2
print(f())
",
        out: "2\n",
        arcs: "-2 3; -1 1; 1 2; 2 7; 3 4; 4 6; 6 -2; 7 -1",
        status: 0,
        err: "",
        steps: 8,
    },
    Row {
        title: "Handlers",
        source: "\
try:
    x = 1 // 0
except KeyError:
    print(1)
except ZeroDivisionError:
    print(2)
print(3)
",
        out: "\
2
3
",
        arcs: "-1 1; 1 2; 2 3; 3 5; 5 6; 6 7; 7 -1",
        status: 0,
        err: "",
        steps: 7,
    },
    Row {
        title: "Continue through finally",
        source: "\
for k in range(2):
    try:
        continue
    finally:
        print(k)
print(9)
",
        out: "\
0
1
9
",
        arcs: "-1 1; 1 2; 1 6; 2 3; 3 5; 5 1; 6 -1",
        status: 0,
        err: "",
        steps: 11,
    },
    Row {
        title: "Uncaught",
        source: "\
def g():
    raise ValueError(\"no\")
def f():
    g()
f()
",
        out: "",
        arcs: "-3 4; -1 1; -1 2; 1 3; 2 -1; 3 5; 4 -3; 5 -1",
        status: 1,
        err: "ValueError: no\n",
        steps: 8,
    },
    Row {
        title: "Match",
        source: "\
def f(v):
    match v:
        case 0:
            return 1
        case [a, b] if a // b:
            return 2
        case _:
            return 3
print(f(0), f([4, 2]), f(\"ab\"))
f([1, 0])
",
        out: "1 2 3\n",
        arcs: "-1 1; -1 2; 1 9; 2 3; 3 4; 3 5; 4 -1; 5 -1; 5 6; 5 7; 6 -1; 7 8; 8 -1; 9 10; 10 -1",
        status: 1,
        err: "ZeroDivisionError: division by zero\n",
        steps: 23,
    },
    Row {
        title: "Absent module",
        source: "\
try:
    import nothere
except ImportError:
    nothere = None
print(nothere)
",
        out: "None\n",
        arcs: "-1 1; 1 2; 2 3; 3 4; 4 5; 5 -1",
        status: 0,
        err: "",
        steps: 6,
    },
    Row {
        title: "Pragma",
        source: "\
debug = False
if debug:  # pragma: no cover
    print(1)
else:
    print(2)
while True:
    break
",
        out: "2\n",
        arcs: "-1 1; 1 2; 2 5; 5 6; 6 7; 7 -1",
        status: 0,
        err: "",
        steps: 6,
    },
    Row {
        title: "Hook and plugin",
        source: "\
def test_a():
    pass
def test_b():
    pass
test_a()
test_b()
test_a()
test_b()
",
        out: "",
        arcs: "-3 4; -1 1; -1 2; 1 3; 2 -1; 3 5; 4 -3; 5 6; 6 7; 7 8; 8 -1",
        status: 0,
        err: "",
        steps: 15,
    },
    Row {
        title: "Generated source of no block",
        source: "\
t = 0
print(t)
",
        out: "0\n",
        arcs: "-1 1; 1 2; 2 -1",
        status: 0,
        err: "",
        steps: 3,
    },
    Row {
        title: "Generated source of one block",
        source: "\
t = 0
while t > 50:
    t = t - 7
print(t)
",
        out: "0\n",
        arcs: "-1 1; 1 2; 2 4; 4 -1",
        status: 0,
        err: "",
        steps: 4,
    },
    Row {
        title: "Counting loop",
        source: "\
n = 2
while n:
    n = n - 1
print(n)
",
        out: "0\n",
        arcs: "-1 1; 1 2; 2 3; 2 4; 3 2; 4 -1",
        status: 0,
        err: "",
        steps: 8,
    },
    Row {
        title: "Unset name",
        source: "x = 1 + y\n",
        out: "",
        arcs: "-1 1; 1 -1",
        status: 1,
        err: "NameError: name 'y' is not defined\n",
        steps: 2,
    },
    Row {
        title: "Unset name of a clause",
        source: "\
try:
    raise KeyError('k')
except KeyError as e:
    print(e)
print(e)
",
        out: "'k'\n",
        arcs: "-1 1; 1 2; 2 3; 3 4; 4 5; 5 -1",
        status: 1,
        err: "NameError: name 'e' is not defined\n",
        steps: 6,
    },
    Row {
        title: "Two `try` in a loop",
        source: "\
n = 0
def f():
    for k in (0, 1):
        try:
            try:
                n // k
            finally:
                print('f', k)
        except ZeroDivisionError:
            continue
        else:
            return k
print(f())
",
        out: "\
f 0
f 1
1
",
        arcs: "-2 3; -1 1; 1 2; 2 13; 3 4; 4 5; 5 6; 6 8; 8 9; 8 12; 9 10; 10 3; 12 -2; 13 -1",
        status: 0,
        err: "",
        steps: 18,
    },
];

#[test]
fn worked_rows(rt: HostRuntime) -> Result<(), Fail> {
    for row in &ROWS {
        assert_row(&rt, rt.alloc(), row)?;
    }
    Ok(())
}
