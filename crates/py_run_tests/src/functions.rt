// Rows of functions: parameters, defaults, names and recursion.

use crate::rows::{Row, wrong};
use std::test::Fail;

static ROWS: [Row; 13] = [
    Row {
        title: "Recursion",
        source: "\
def fact(n):
    if n < 2:
        return 1
    return n * fact(n - 1)
print(fact(5), fact(20))
",
        out: "120 2432902008176640000\n",
        end: "finished",
        steps: 78,
        events: "",
        arcs: "",
    },
    Row {
        title: "Defaults are evaluated once, from left to right",
        source: "\
def g(n):
    print('default', n)
    return n
def f(a, b=g(1), c=g(2)):
    return [a, b, c]
print(f(0), f(0, 5), f(0, 5, 6))
",
        out: "\
default 1
default 2
[0, 1, 2] [0, 5, 2] [0, 5, 6]
",
        end: "finished",
        steps: 16,
        events: "0.0( 1 4 0.1( 2 3 ) 0.1( 2 3 ) 6 0.2( 5 ) 0.2( 5 ) 0.2( 5 ) )",
        arcs: "",
    },
    Row {
        title: "Too few and too many values",
        source: "\
def f(a, b=1): pass
for i in range(4):
    try:
        if i == 0: f()
        if i == 1: f(1)
        if i == 2: f(1, 2)
        if i == 3: f(1, 2, 3)
        print(i)
    except TypeError as e:
        print(i, e)
",
        out: "\
0 wrong number of arguments
1
2
3 wrong number of arguments
",
        end: "finished",
        steps: 0,
        events: "",
        arcs: "",
    },
    Row {
        title: "The values are evaluated before their number is checked",
        source: "\
def g():
    print('value')
def f(): pass
f(g())
",
        out: "value\n",
        end: "TypeError: wrong number of arguments",
        steps: 6,
        events: "0.0( 1 3 4 0.1( 2 ) !TypeError )",
        arcs: "",
    },
    Row {
        title: "Globals and locals",
        source: "\
n = 1
def read():
    return n
def local():
    n = 2
    return n
def change():
    global n
    n = 3
    return n
print(read(), local(), read(), change(), read(), n)
",
        out: "1 2 1 3 3 3\n",
        end: "finished",
        steps: 0,
        events: "",
        arcs: "",
    },
    Row {
        title: "An unset local",
        source: "\
x = 1
def f():
    print(x)
    x = 2
f()
",
        out: "",
        end: "UnboundLocalError: local variable 'x' is not set",
        steps: 6,
        events: "0.0( 1 2 5 0.1( 3 !UnboundLocalError ) !UnboundLocalError )",
        arcs: "",
    },
    Row {
        title: "Functions are values",
        source: "\
def f(): return 1
g = f
def f(): return 2
print(g(), f(), g == f, g == g, [f][0]())
def h(): pass
print(h(), not h)
",
        out: "\
1 2 False True 2
None False
",
        end: "finished",
        steps: 15,
        events: "0.0( 1 2 3 4 0.1( 1 ) 0.2( 3 ) 0.2( 3 ) 5 6 0.3( 5 ) )",
        arcs: "",
    },
    Row {
        title: "A function in the place of a built-in one",
        source: "\
print(len([1]))
def len(x): return 7
print(len([1]))
",
        out: "\
1
7
",
        end: "finished",
        steps: 0,
        events: "",
        arcs: "",
    },
    Row {
        title: "The name of a built-in function, bound and unset by a clause, and set again",
        source: "\
def f():
    return len
for i in range(2):
    try:
        raise ValueError(i)
    except ValueError as len:
        print(f())
    print(f()('abc'))
len = 5
print(f())
",
        out: "\
0
3
1
3
5
",
        end: "finished",
        steps: 0,
        events: "",
        arcs: "",
    },
    Row {
        title: "A `def` in a suite, and one that isn't executed",
        source: "\
for i in range(2):
    if i:
        def f():
            return i
    else:
        def f():
            return 'first'
    print(f())
if 0:
    def g(): pass
g()
",
        out: "\
first
1
",
        end: "NameError: name 'g' is not defined",
        steps: 16,
        events: "0.0( 1 2 6 8 0.2( 7 ) 1 2 3 8 0.1( 4 ) 1 9 11 !NameError )",
        arcs: "",
    },
    Row {
        title: "An assigned parameter",
        source: "\
def f(a, l):
    a = a + 1
    l.append(a)
    return a
a = 1
l = []
print(f(a, l), a, l)
",
        out: "2 1 [2]\n",
        end: "finished",
        steps: 0,
        events: "",
        arcs: "",
    },
    Row {
        title: "A return in a loop in a loop",
        source: "\
def f():
    for i in range(3):
        while True:
            if i == 1: return i
            break
print(f())
",
        out: "1\n",
        end: "finished",
        steps: 12,
        events: "0.0( 1 6 0.1( 2 3 4 5 2 3 4 ) )",
        arcs: "",
    },
    Row {
        title: "Frames up to the last one",
        source: "\
def f(n):
    if n == 0:
        return 0
    return 1 + f(n - 1)
print(f(998))
f(999)
",
        out: "998\n",
        end: "RecursionError: maximum recursion depth exceeded",
        steps: 5998,
        events: "",
        arcs: "",
    },
];

#[test]
fn runs_of_functions(rt: HostRuntime) -> Result<(), Fail> {
    let found = wrong(rt.alloc(), &ROWS)?;
    assert_eq!(rt; found.as_str(), "");
    Ok(())
}
