// Rows of simple statements, conditions and loops.

use crate::rows::{Row, wrong};
use std::test::Fail;

static ROWS: [Row; 12] = [
    Row {
        title: "A loop that is left by `break`",
        source: "\
n = 0
while n < 5:
    n = n + 1
    if n == 2:
        continue
    if n == 4:
        break
    print(n)
else:
    print('else')
print('end')
",
        out: "\
1
3
end
",
        end: "finished",
        steps: 22,
        events: "0.0( 1 2 3 4 6 8 2 3 4 5 2 3 4 6 8 2 3 4 6 7 11 )",
        arcs: "",
    },
    Row {
        title: "A loop that its test ends",
        source: "\
n = 2
while n:
    n -= 1
else:
    print('else', n)
",
        out: "else 0\n",
        end: "finished",
        steps: 8,
        events: "0.0( 1 2 3 2 3 2 5 )",
        arcs: "",
    },
    Row {
        title: "A list that grows in its loop",
        source: "\
l = [1, 2]
for x in l:
    if x < 4:
        l.append(x + 2)
print(l)
",
        out: "[1, 2, 3, 4, 5]\n",
        end: "finished",
        steps: 17,
        events: "0.0( 1 2 3 4 2 3 4 2 3 4 2 3 2 3 2 5 )",
        arcs: "",
    },
    Row {
        title: "Loops over a text, a dict, a list of pairs and an empty tuple",
        source: "\
for c in 'ab': print(c)
for k in {'x': 1, 'y': 2}: print(k)
for a, (b, c) in [(1, (2, 3)), [4, '56']]: print(a, b, c)
for x in (): print('never')
else: print('else')
print(c, k)
",
        out: "\
a
b
x
y
1 2 3
4 5 6
else
6 y
",
        end: "finished",
        steps: 19,
        events: "0.0( 1 1 1 2 2 2 3 3 3 4 5 6 )",
        arcs: "",
    },
    Row {
        title: "A dict that changes in its loop",
        source: "\
d = {'a': 1}
for k in d:
    d[k + 'b'] = 2
",
        out: "",
        end: "RuntimeError: dictionary changed size during iteration",
        steps: 5,
        events: "0.0( 1 2 3 2 !RuntimeError )",
        arcs: "",
    },
    Row {
        title: "An item that can't be unpacked",
        source: "\
for a, b in [(1, 2), (3,)]:
    print(a, b)
",
        out: "1 2\n",
        end: "ValueError: wrong number of values",
        steps: 4,
        events: "0.0( 1 2 1 !ValueError )",
        arcs: "",
    },
    Row {
        title: "A `break` in the `else` of a loop leaves the outer loop",
        source: "\
for i in range(3):
    for j in range(2):
        pass
    else:
        break
    print('never')
print(i, j)
",
        out: "0 1\n",
        end: "finished",
        steps: 9,
        events: "0.0( 1 2 3 2 3 2 5 7 )",
        arcs: "",
    },
    Row {
        title: "Each way of a condition",
        source: "\
for n in range(3):
    if n == 0: print('a')
    elif n == 1:
        print('b')
    else:
        print('c')
",
        out: "\
a
b
c
",
        end: "finished",
        steps: 13,
        events: "0.0( 1 2 1 2 3 4 1 2 3 6 1 )",
        arcs: "",
    },
    Row {
        title: "A test that raises",
        source: "\
x = 0
if x:
    print(1)
elif 1 // x:
    print(2)
else:
    print(3)
",
        out: "",
        end: "ZeroDivisionError: division by zero",
        steps: 4,
        events: "0.0( 1 2 4 !ZeroDivisionError )",
        arcs: "",
    },
    Row {
        title: "Statements over many lines, and many in one",
        source: "\
x = [
    1,
    2
]; y = 3
print(x,
      y); print('z'); \\
print('w')
pass; pass; x

# no statement
print('v')
",
        out: "\
[1, 2] 3
z
w
v
",
        end: "finished",
        steps: 10,
        events: "0.0( 1 4 5 6 7 8 11 )",
        arcs: "",
    },
    Row {
        title: "A docstring and a `global` mark nothing",
        source: "\
'''module'''
n = 0
def f():
    'doc'
    global n
    n = 5
f()
print(n)
",
        out: "5\n",
        end: "finished",
        steps: 7,
        events: "0.0( 2 3 7 0.1( 6 ) 8 )",
        arcs: "",
    },
    Row {
        title: "A text that is no docstring marks its line",
        source: "\
x = 1
'no docstring'
def f():
    f'{x}'
f()
",
        out: "",
        end: "finished",
        steps: 7,
        events: "0.0( 1 2 3 5 0.1( 4 ) )",
        arcs: "",
    },
];

#[test]
fn runs_of_statements(rt: HostRuntime) -> Result<(), Fail> {
    let found = wrong(rt.alloc(), &ROWS)?;
    assert_eq!(rt; found.as_str(), "");
    Ok(())
}
