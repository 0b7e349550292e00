//! The worked rows of values, f-strings and defaults.

use crate::rows::{Row, assert_row};
use std::test::Fail;

static ROWS: [Row; 16] = [
    Row {
        title: "A `not` in front of a comparison",
        source: "print(not 1 == 2)\n",
        out: "True\n",
        arcs: "-1 1; 1 -1",
        status: 0,
        err: "",
        steps: 2,
    },
    Row {
        title: "Quotients and remainders",
        source: "print(-7 // 2, -7 % 2, 7 // -2, 7 % -2)\n",
        out: "-4 1 -4 -1\n",
        arcs: "-1 1; 1 -1",
        status: 0,
        err: "",
        steps: 2,
    },
    Row {
        title: "Comparisons, `or` and `and`",
        source: "print(1 < 2 < 3, 0 or 'a', [] and 1)\n",
        out: "True a []\n",
        arcs: "-1 1; 1 -1",
        status: 0,
        err: "",
        steps: 2,
    },
    Row {
        title: "Displays",
        source: "print([1, 'b', None], (1,), {'k': 2})\n",
        out: "[1, 'b', None] (1,) {'k': 2}\n",
        arcs: "-1 1; 1 -1",
        status: 0,
        err: "",
        steps: 2,
    },
    Row {
        title: "A slice and an index",
        source: "print('abcd'[1:3], 'abcd'[-1])\n",
        out: "bc d\n",
        arcs: "-1 1; 1 -1",
        status: 0,
        err: "",
        steps: 2,
    },
    Row {
        title: "The greatest number and one",
        source: "9223372036854775807 + 1\n",
        out: "",
        arcs: "-1 1; 1 -1",
        status: 1,
        err: "OverflowError: integer too large\n",
        steps: 2,
    },
    Row {
        title: "In place",
        source: "\
l = [1]
l += [2]
l[0] = 5
print(l)
",
        out: "[5, 2]\n",
        arcs: "-1 1; 1 2; 2 3; 3 4; 4 -1",
        status: 0,
        err: "",
        steps: 5,
    },
    Row {
        title: "Append",
        source: "\
l = []
l.append(1)
print(l)
",
        out: "[1]\n",
        arcs: "-1 1; 1 2; 2 3; 3 -1",
        status: 0,
        err: "",
        steps: 4,
    },
    Row {
        title: "Split",
        source: "print('a b'.split())\n",
        out: "['a', 'b']\n",
        arcs: "-1 1; 1 -1",
        status: 0,
        err: "",
        steps: 2,
    },
    Row {
        title: "A list alone",
        source: "x = [1]\n",
        out: "",
        arcs: "-1 1; 1 -1",
        status: 0,
        err: "",
        steps: 2,
    },
    Row {
        title: "An f-string alone",
        source: "x = f'a'\n",
        out: "",
        arcs: "-1 1; 1 -1",
        status: 0,
        err: "",
        steps: 2,
    },
    Row {
        title: "Fields and braces",
        source: "\
x = 3
print(f'{x}+{x + 1}={{{x * 2 + 1}}}')
",
        out: "3+4={7}\n",
        arcs: "-1 1; 1 2; 2 -1",
        status: 0,
        err: "",
        steps: 3,
    },
    Row {
        title: "Neighbours of an f-string",
        source: "\
d = {'k': [1]}
print('<' f\"{d['k']}\" '>')
",
        out: "<[1]>\n",
        arcs: "-1 1; 1 2; 2 -1",
        status: 0,
        err: "",
        steps: 3,
    },
    Row {
        title: "Defaults in a loop",
        source: "\
fs = []
for i in range(2):
    def f(a, b=i):
        return a + b
    fs.append(f)
print(fs[0](10), fs[1](10), f(1, 2))
",
        out: "10 11 3\n",
        arcs: "-3 4; -1 1; 1 2; 2 3; 2 6; 3 5; 4 -3; 5 2; 6 -1",
        status: 0,
        err: "",
        steps: 16,
    },
    Row {
        title: "Default that raises",
        source: "\
x = 0
def f(a=1 // x): return a
print(9)
",
        out: "",
        arcs: "-1 1; 1 2; 2 -1",
        status: 1,
        err: "ZeroDivisionError: division by zero\n",
        steps: 3,
    },
    Row {
        title: "One list of defaults",
        source: "\
t = 0
def f(a=[]):
    a.append(1)
    return len(a)
print(f(), f())
",
        out: "1 2\n",
        arcs: "-2 3; -1 1; 1 2; 2 5; 3 4; 4 -2; 5 -1",
        status: 0,
        err: "",
        steps: 10,
    },
];

#[test]
fn rows_of_values(rt: HostRuntime) -> Result<(), Fail> {
    for row in &ROWS {
        assert_row(&rt, rt.alloc(), row)?;
    }
    Ok(())
}
