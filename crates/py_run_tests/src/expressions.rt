// Rows of expressions: operators, displays, calls of built-ins, and the order of evaluation.

use crate::rows::{Row, wrong};
use std::test::Fail;

static ROWS: [Row; 19] = [
    Row {
        title: "A chained comparison evaluates an operand once and stops at the first false one",
        source: "\
def g(n):
    print(n)
    return n
print(g(1) < g(3) < g(2) < g(9))
",
        out: "\
1
3
2
False
",
        end: "finished",
        steps: 12,
        events: "0.0( 1 4 0.1( 2 3 ) 0.1( 2 3 ) 0.1( 2 3 ) )",
        arcs: "",
    },
    Row {
        title: "An augmented assignment evaluates its object and its index once",
        source: "\
l = [1, 2]
def at(n):
    print('at', n)
    return n
def of():
    print('of')
    return l
of()[at(0)] += at(5)
print(l)
",
        out: "\
of
at 0
at 5
[6, 2]
",
        end: "finished",
        steps: 15,
        events: "0.0( 1 2 5 8 0.2( 6 7 ) 0.1( 3 4 ) 0.1( 3 4 ) 9 )",
        arcs: "",
    },
    Row {
        title: "An augmented assignment reads before it evaluates the right side",
        source: "\
l = [1]
def f():
    l[0] = 100
    return 1
l[0] += f()
print(l)
",
        out: "[2]\n",
        end: "finished",
        steps: 8,
        events: "",
        arcs: "",
    },
    Row {
        title: "Targets come after the right side, from left to right",
        source: "\
l = [0, 0]
i = 0
i, l[i] = 1, 2
print(i, l)
a = b = []
a.append(1)
print(a, b, a == b)
",
        out: "\
1 [0, 2]
[1] [1] True
",
        end: "finished",
        steps: 8,
        events: "",
        arcs: "",
    },
    Row {
        title: "`or`, `and`, `not` and a conditional evaluate what they need",
        source: "\
def g(n):
    print(n)
    return n
print(g(0) or g(2), g(0) and g(3), g(1) and g(4), g(5) or g(6))
print(g(7) if g(0) else g(8))
print(not g(0), not 'a')
",
        out: "\
0
2
0
1
4
5
2 0 4 5
0
8
8
0
True False
",
        end: "finished",
        steps: 32,
        events: "",
        arcs: "",
    },
    Row {
        title: "Operators of numbers",
        source: "\
print(7 // 2, -7 // 2, 7 // -2, -7 // -2, 7 % 3, -7 % 3, 7 % -3, -7 % -3)
print(2 + 3 * 4 - 6 // 4, (2 + 3) * 4, - - 3, -2 * -3, +True)
print(True + True, True * 5, 3 - False)
",
        out: "\
3 -4 -4 3 1 2 -2 -1
13 20 3 6 1
2 5 3
",
        end: "finished",
        steps: 4,
        events: "",
        arcs: "",
    },
    Row {
        title: "Operators of sequences",
        source: "\
print('a' + 'b', (1,) + (2, 3), [1] + [2])
print('ab' * 2, 2 * (0,), [1, 2] * 2, 'x' * -1, [1] * 0)
print('b' in 'abc', 'd' not in 'abc', 2 in [1, 2], 3 not in (1, 2), 'k' in {'k': 1})
",
        out: "\
ab (1, 2, 3) [1, 2]
abab (0, 0) [1, 2, 1, 2]  []
True True True True True
",
        end: "finished",
        steps: 4,
        events: "",
        arcs: "",
    },
    Row {
        title: "Comparisons",
        source: "\
x = 1
print(1 == True, 'a' == 1, [1, 2] == [1, 2], (1,) == [1], None == 0, {'a': 1, 'b': 2} == {'b': 2, 'a': 1})
print('a' < 'b', 'B' < 'a', (1, 2) < (1, 3), [1] < [1, 0], (2,) > (1, 9))
print(1 < 2 <= 2 != 3 >= 3 > 0, None is None, x is not None, x is True, True is True)
",
        out: "\
True False True False False True
True True True True True
True True True False True
",
        end: "finished",
        steps: 5,
        events: "",
        arcs: "",
    },
    Row {
        title: "Items are evaluated from left to right, a key before its value",
        source: "\
def g(n):
    print(n)
    return n
print([g(1), g(2)], (g(3), g(4)), {g(5): g(6), g(7): g(8)})
d = {'a': 1, 'b': 2, 'a': 3}
print(d, len(d), (), [], {})
",
        out: "\
1
2
3
4
5
6
7
8
[1, 2] (3, 4) {5: 6, 7: 8}
{'a': 3, 'b': 2} 2 () [] {}
",
        end: "finished",
        steps: 29,
        events: "",
        arcs: "",
    },
    Row {
        title: "Indices and slices",
        source: "\
s = 'abcdef'
l = [0, 1, 2, 3]
print(s[0], s[-1], l[True], (7, 8)[1], {1: 2}[1])
print(s[1:3], s[:2], s[4:], s[:], s[-2:], s[:-4], s[5:2], s[-9:2], s[3:99])
print(l[1:], l[:-1], l[:] == l, (1, 2, 3)[1:])
b = l[:]
b[0] = 9
c = l
c[1] = 8
print(l, b)
",
        out: "\
a f 1 8 2
bc ab ef abcdef ef ab  ab def
[1, 2, 3] [0, 1, 2] True (2, 3)
[0, 8, 2, 3] [9, 1, 2, 3]
",
        end: "finished",
        steps: 11,
        events: "",
        arcs: "",
    },
    Row {
        title: "Augmented assignments, in place and not",
        source: "\
a = [1]
b = a
a += [2]
a += 'xy'
a *= 2
a += {'k': 1}
print(b)
c = (1,)
d = c
c += (2,)
print(c, d)
n = 7
n //= 2
n *= 5
n -= 1
n %= 4
print(n)
",
        out: "\
[1, 2, 'x', 'y', 1, 2, 'x', 'y', 'k']
(1, 2) (1,)
2
",
        end: "finished",
        steps: 18,
        events: "",
        arcs: "",
    },
    Row {
        title: "Methods",
        source: "\
l = [3]
print(l.append(4), l.pop(), l.pop(0), l)
d = {'a': 1, 'b': 2}
print(d.get('a'), d.get('z'), d.get('z', 0), d.pop('a'), d.pop('z', 9), d.keys(), d)
print('a,b,,c'.split(','), '  a  b '.split(), '-'.join(['x', 'y']), 'abc'.startswith('ab'))
",
        out: "\
None 4 3 []
1 None 0 1 9 ['b'] {'b': 2}
['a', 'b', '', 'c'] ['a', 'b'] x-y True
",
        end: "finished",
        steps: 6,
        events: "",
        arcs: "",
    },
    Row {
        title: "Built-in functions",
        source: "\
print(len('abc'), len([]), len({'k': 1}), range(3), range(1, 4), range(5, 0, -2))
print(str(12) + '!', repr('a'), int(' -7 '), int('0012'), int(True))
",
        out: "\
3 0 1 [0, 1, 2] [1, 2, 3] [5, 3, 1]
12! 'a' -7 12 1
",
        end: "finished",
        steps: 3,
        events: "",
        arcs: "",
    },
    Row {
        title: "Texts of values",
        source: "\
import sys
def f(): pass
l = [1]
l.append(l)
print(l, f, sys, print, ValueError, ValueError('x'), KeyError('k'), [ValueError('x'), KeyError()])
print(\"it's\", [\"it's\", 'a\"b', '\\n', 'a\\'b\"'], None, True)
",
        out: "\
[1, [...]] <function> <module> <built-in function print> <class 'ValueError'> x 'k' [ValueError('x'), KeyError()]
it's [\"it's\", 'a\"b', '\\n', 'a\\'b\"'] None True
",
        end: "finished",
        steps: 7,
        events: "",
        arcs: "",
    },
    Row {
        title: "Fields of f-strings are evaluated from left to right",
        source: "\
def g(n):
    print(n)
    return n
x = f'{g(1)}-{g(2)}'
print(x, f'{x}{[x]}{None}', f'{1, 2}', f'{{}}', 'a' f'b' 'c')
",
        out: "\
1
2
1-2 1-2['1-2']None (1, 2) {} abc
",
        end: "finished",
        steps: 10,
        events: "",
        arcs: "",
    },
    Row {
        title: "The callee comes before its arguments",
        source: "\
def g():
    print('never')
nothing(g())
",
        out: "",
        end: "NameError: name 'nothing' is not defined",
        steps: 3,
        events: "0.0( 1 3 !NameError )",
        arcs: "",
    },
    Row {
        title: "A method that isn't there raises before the arguments",
        source: "\
def g():
    print('never')
(1).nothing(g())
",
        out: "",
        end: "AttributeError: no attribute 'nothing'",
        steps: 3,
        events: "0.0( 1 3 !AttributeError )",
        arcs: "",
    },
    Row {
        title: "Names that begin a statement elsewhere",
        source: "\
match = 2
case = 3
print(match * case)
",
        out: "6\n",
        end: "finished",
        steps: 4,
        events: "",
        arcs: "",
    },
    Row {
        title: "What raises, and its text",
        source: "\
def f(n):
    if n == 0: 1 + 'a'
    elif n == 1: 1 // 0
    elif n == 2: [1][1]
    elif n == 3: {}['k']
    elif n == 4: 'abc'[5]
    elif n == 5: None()
    elif n == 6: f()
    elif n == 7: len(1, 2)
    elif n == 8: (1).x
    elif n == 9: missing
    elif n == 10: int('x')
    elif n == 11: {[]: 1}
    elif n == 12: 9223372036854775807 + 1
    elif n == 13: a, b = [1]
    elif n == 14: a, b = 5
    elif n == 15: [].pop()
    elif n == 16: (1, 2)[2]
    elif n == 17: (1)[0]
    elif n == 18: 'a' < 1
    elif n == 19: range(1, 2, 0)
    elif n == 20: raise 5
    elif n == 21: a
    elif n == 22: [1][5] = 0
    elif n == 23: 'abc'[0] = 'x'
    elif n == 24: [1]['k']
    elif n == 25: ''.join([1])
    elif n == 26: 'a'.split('')
    elif n == 27: len(5)
    elif n == 28: import nowhere
    elif n == 29: from sys import nothing
    elif n == 30: assert n == 0, 'why'
    elif n == 31: assert False
    elif n == 32: True in {'k': 1}
    elif n == 33: b = []; b += 5
    elif n == 34: {}.pop('k')
    elif n == 35:
        for x in 5: pass
for n in range(36):
    try:
        f(n)
    except Exception as e:
        print([e])
",
        out: "\
[TypeError('unsupported operand')]
[ZeroDivisionError('division by zero')]
[IndexError('list index out of range')]
[KeyError('k')]
[IndexError('string index out of range')]
[TypeError('not callable')]
[TypeError('wrong number of arguments')]
[TypeError('wrong number of arguments')]
[AttributeError(\"no attribute 'x'\")]
[NameError(\"name 'missing' is not defined\")]
[ValueError('invalid literal for int')]
[TypeError('unhashable key')]
[OverflowError('integer too large')]
[ValueError('wrong number of values')]
[TypeError('not iterable')]
[IndexError('pop index out of range')]
[IndexError('tuple index out of range')]
[TypeError('not subscriptable')]
[TypeError('unsupported operand')]
[ValueError('range step is zero')]
[TypeError('not an exception')]
[UnboundLocalError(\"local variable 'a' is not set\")]
[IndexError('list assignment index out of range')]
[TypeError('not subscriptable')]
[TypeError('not subscriptable')]
[TypeError('bad argument')]
[ValueError('empty separator')]
[TypeError('bad argument')]
[ModuleNotFoundError(\"No module named 'nowhere'\")]
[ImportError(\"cannot import name 'nothing' from 'sys'\")]
[AssertionError('why')]
[AssertionError()]
[TypeError('unhashable key')]
[TypeError('unsupported operand')]
[KeyError('k')]
[TypeError('not iterable')]
",
        end: "finished",
        steps: 0,
        events: "",
        arcs: "",
    },
];

#[test]
fn runs_of_expressions(rt: HostRuntime) -> Result<(), Fail> {
    let found = wrong(rt.alloc(), &ROWS)?;
    assert_eq!(rt; found.as_str(), "");
    Ok(())
}
