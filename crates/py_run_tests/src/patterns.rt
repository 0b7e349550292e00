// Rows of `match`.

use crate::rows::{Row, wrong};
use std::test::Fail;

static ROWS: [Row; 10] = [
    Row {
        title: "Each kind of pattern",
        source: "\
def f(v):
    match v:
        case 0 | 1: return 'small'
        case -5: return 'minus'
        case 'ab' | 'cd': return 'text'
        case None: return 'none'
        case []: return 'empty'
        case [x]: return ['one', x]
        case (1, (y, _)) if y > 5: return ['guard', y]
        case [a, b] as whole: return [whole, a, b]
        case _: return 'other'
for v in [1, True, -5, 'ab', 'cd', None, [], (), [7], (1, [6, 0]), (1, [5, 0]), (1, 2, 3), 'x']:
    print(f(v))
",
        out: "\
small
small
minus
text
text
none
empty
empty
['one', 7]
['guard', 6]
[(1, [5, 0]), 1, [5, 0]]
other
other
",
        end: "finished",
        steps: 0,
        events: "",
        arcs: "",
    },
    Row {
        title: "Each case that is tried marks its line",
        source: "\
for v in [5, [1, 2]]:
    match v:
        case [a]:
            print('one', a)
        case [a, b] if a > b:
            print('falling')
        case [a, b]:
            print(a, b)
print('end')
",
        out: "\
1 2
end
",
        end: "finished",
        steps: 14,
        events: "0.0( 1 2 3 5 7 1 2 3 5 7 8 1 9 )",
        arcs: "",
    },
    Row {
        title: "True and False are themselves, numbers are equal",
        source: "\
def f(v):
    match v:
        case True: return 'true'
        case 1: return 'one'
        case False | 0: return 'zero'
print(f(True), f(1), f(False), f(0), f(2))
",
        out: "true one zero zero None\n",
        end: "finished",
        steps: 0,
        events: "",
        arcs: "",
    },
    Row {
        title: "A guard that fails leaves the names bound",
        source: "\
match [1, 2]:
    case [a, b] if a > b: pass
    case [_, c]: print(a, b, c)
",
        out: "1 2 2\n",
        end: "finished",
        steps: 0,
        events: "",
        arcs: "",
    },
    Row {
        title: "A pattern that doesn't match as a whole binds no name",
        source: "\
x = 0
match [1, 2]:
    case [x, 3]: pass
    case _: print(x)
",
        out: "0\n",
        end: "finished",
        steps: 0,
        events: "",
        arcs: "",
    },
    Row {
        title: "A name behind a dot is a value",
        source: "\
import sys
match ['s.py', 'one']:
    case sys.nothing_there if 0: pass
    case _: print('no')
",
        out: "",
        end: "AttributeError: no attribute 'nothing_there'",
        steps: 4,
        events: "0.0( 1 2 3 !AttributeError )",
        arcs: "",
    },
    Row {
        title: "A name of a module is compared",
        source: "\
import sys
match ['s.py', 'one']:
    case [sys.argv]: print('inside')
    case sys.argv: print('same')
",
        out: "same\n",
        end: "finished",
        steps: 6,
        events: "0.0( 1 2 3 4 )",
        arcs: "",
    },
    Row {
        title: "The subject is evaluated once",
        source: "\
def g():
    print('subject')
    return 1
match g(), 2:
    case 3, x: pass
    case 1, x: print(x)
",
        out: "\
subject
2
",
        end: "finished",
        steps: 9,
        events: "0.0( 1 4 0.1( 2 3 ) 5 6 )",
        arcs: "",
    },
    Row {
        title: "A guard that raises",
        source: "\
match 5:
    case n if n // 0:
        print(1)
    case _:
        print(2)
",
        out: "",
        end: "ZeroDivisionError: division by zero",
        steps: 3,
        events: "0.0( 1 2 !ZeroDivisionError )",
        arcs: "",
    },
    Row {
        title: "A `break` and a `return` out of a case",
        source: "\
def f():
    for i in range(3):
        match i:
            case 0: continue
            case 1: break
    match i:
        case (k): return k
print(f())
",
        out: "1\n",
        end: "finished",
        steps: 16,
        events: "0.0( 1 8 0.1( 2 3 4 2 3 4 5 6 7 ) )",
        arcs: "",
    },
];

#[test]
fn runs_of_patterns(rt: HostRuntime) -> Result<(), Fail> {
    let found = wrong(rt.alloc(), &ROWS)?;
    assert_eq!(rt; found.as_str(), "");
    Ok(())
}
