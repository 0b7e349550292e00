// The worked programs of one module whose output, arcs and steps leave their events open. The
// others stand in `cov_rows` alone.

use crate::rows::{Row, wrong};
use std::test::Fail;

pub(crate) static ROWS: [Row; 16] = [
    Row {
        title: "Docstring alone",
        source: "\
x = 0
def f():
    '''doc'''
f()
",
        out: "",
        end: "finished",
        steps: 5,
        events: "0.0( 1 2 4 0.1( ) )",
        arcs: "-2 -2; -1 1; 1 2; 2 4; 4 -1",
    },
    Row {
        title: "One-line loop",
        source: "\
n = 3
while n: n = n - 1
",
        out: "",
        end: "finished",
        steps: 9,
        events: "0.0( 1 2 2 2 2 )",
        arcs: "-1 1; 1 2; 2 -1; 2 2",
    },
    Row {
        title: "Loop else",
        source: "\
for k in range(3):
    for j in range(2):
        if j == k:
            break
    else:
        print(k)
print(9)
",
        out: "\
2
9
",
        end: "finished",
        steps: 20,
        events: "0.0( 1 2 3 4 1 2 3 2 3 4 1 2 3 2 3 2 6 1 7 )",
        arcs: "-1 1; 1 2; 1 7; 2 3; 2 6; 3 2; 3 4; 4 1; 6 1; 7 -1",
    },
    Row {
        title: "Two returns",
        source: "\
v = 0
def f():
    try:
        return 1
    finally:
        return 2
print(f())
",
        out: "2\n",
        end: "finished",
        steps: 8,
        events: "0.0( 1 2 7 0.1( 3 4 6 ) )",
        arcs: "-2 3; -1 1; 1 2; 2 7; 3 4; 4 6; 6 -2; 7 -1",
    },
    Row {
        title: "Handlers",
        source: "\
try:
    x = 1 // 0
except KeyError:
    print(1)
except ZeroDivisionError:
    print(2)
print(3)
",
        out: "\
2
3
",
        end: "finished",
        steps: 7,
        events: "0.0( 1 2 !ZeroDivisionError 3 5 6 7 )",
        arcs: "-1 1; 1 2; 2 3; 3 5; 5 6; 6 7; 7 -1",
    },
    Row {
        title: "Uncaught",
        source: "\
def g():
    raise ValueError(\"no\")
def f():
    g()
f()
",
        out: "",
        end: "ValueError: no",
        steps: 8,
        events: "0.0( 1 3 5 0.2( 4 0.1( 2 ) !ValueError ) !ValueError )",
        arcs: "-3 4; -1 1; -1 2; 1 3; 2 -1; 3 5; 4 -3; 5 -1",
    },
    Row {
        title: "Match",
        source: "\
def f(v):
    match v:
        case 0:
            return 1
        case [a, b] if a // b:
            return 2
        case _:
            return 3
print(f(0), f([4, 2]), f(\"ab\"))
f([1, 0])
",
        out: "1 2 3\n",
        end: "ZeroDivisionError: division by zero",
        steps: 23,
        events: "\
0.0( 1 9 0.1( 2 3 4 ) 0.1( 2 3 5 6 ) 0.1( 2 3 5 7 8 ) 10 0.1( 2 3 5 !ZeroDivisionError ) \
!ZeroDivisionError )",
        arcs: "-1 1; -1 2; 1 9; 2 3; 3 4; 3 5; 4 -1; 5 -1; 5 6; 5 7; 6 -1; 7 8; 8 -1; 9 10; 10 -1",
    },
    Row {
        title: "Absent module",
        source: "\
try:
    import nothere
except ImportError:
    nothere = None
print(nothere)
",
        out: "None\n",
        end: "finished",
        steps: 6,
        events: "0.0( 1 2 !ModuleNotFoundError 3 4 5 )",
        arcs: "-1 1; 1 2; 2 3; 3 4; 4 5; 5 -1",
    },
    Row {
        title: "Hook and plugin",
        source: "\
def test_a():
    pass
def test_b():
    pass
test_a()
test_b()
test_a()
test_b()
",
        out: "",
        end: "finished",
        steps: 15,
        events: "0.0( 1 3 5 0.1( 2 ) 6 0.2( 4 ) 7 0.1( 2 ) 8 0.2( 4 ) )",
        arcs: "-3 4; -1 1; -1 2; 1 3; 2 -1; 3 5; 4 -3; 5 6; 6 7; 7 8; 8 -1",
    },
    Row {
        title: "The greatest number and one",
        source: "9223372036854775807 + 1\n",
        out: "",
        end: "OverflowError: integer too large",
        steps: 2,
        events: "0.0( 1 !OverflowError )",
        arcs: "",
    },
    Row {
        title: "Unset name",
        source: "x = 1 + y\n",
        out: "",
        end: "NameError: name 'y' is not defined",
        steps: 2,
        events: "0.0( 1 !NameError )",
        arcs: "-1 1; 1 -1",
    },
    Row {
        title: "Unset name of a clause",
        source: "\
try:
    raise KeyError('k')
except KeyError as e:
    print(e)
print(e)
",
        out: "'k'\n",
        end: "NameError: name 'e' is not defined",
        steps: 6,
        events: "0.0( 1 2 3 4 5 !NameError )",
        arcs: "-1 1; 1 2; 2 3; 3 4; 4 5; 5 -1",
    },
    Row {
        title: "Two `try` in a loop",
        source: "\
n = 0
def f():
    for k in (0, 1):
        try:
            try:
                n // k
            finally:
                print('f', k)
        except ZeroDivisionError:
            continue
        else:
            return k
print(f())
",
        out: "\
f 0
f 1
1
",
        end: "finished",
        steps: 18,
        events: "\
0.0( 1 2 13 0.1( 3 4 5 6 !ZeroDivisionError 8 !ZeroDivisionError 9 10 3 4 5 6 8 12 ) )",
        arcs: "-2 3; -1 1; 1 2; 2 13; 3 4; 4 5; 5 6; 6 8; 8 9; 8 12; 9 10; 10 3; 12 -2; 13 -1",
    },
    Row {
        title: "Defaults in a loop",
        source: "\
fs = []
for i in range(2):
    def f(a, b=i):
        return a + b
    fs.append(f)
print(fs[0](10), fs[1](10), f(1, 2))
",
        out: "10 11 3\n",
        end: "finished",
        steps: 16,
        events: "0.0( 1 2 3 5 2 3 5 2 6 0.1( 4 ) 0.1( 4 ) 0.1( 4 ) )",
        arcs: "-3 4; -1 1; 1 2; 2 3; 2 6; 3 5; 4 -3; 5 2; 6 -1",
    },
    Row {
        title: "Default that raises",
        source: "\
x = 0
def f(a=1 // x): return a
print(9)
",
        out: "",
        end: "ZeroDivisionError: division by zero",
        steps: 3,
        events: "0.0( 1 2 !ZeroDivisionError )",
        arcs: "-1 1; 1 2; 2 -1",
    },
    Row {
        title: "One list of defaults",
        source: "\
t = 0
def f(a=[]):
    a.append(1)
    return len(a)
print(f(), f())
",
        out: "1 2\n",
        end: "finished",
        steps: 10,
        events: "0.0( 1 2 5 0.1( 3 4 ) 0.1( 3 4 ) )",
        arcs: "",
    },
];

#[test]
fn runs_of_worked_rows(rt: HostRuntime) -> Result<(), Fail> {
    let found = wrong(rt.alloc(), &ROWS)?;
    assert_eq!(rt; found.as_str(), "");
    Ok(())
}
