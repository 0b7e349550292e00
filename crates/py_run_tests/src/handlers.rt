// Rows of `try`, `raise` and `assert`.

use crate::rows::{Row, wrong};
use std::test::Fail;

pub(crate) static ROWS: [Row; 20] = [
    Row {
        title: "A `finally` suite on each way in",
        source: "\
def f(n):
    for i in range(2):
        try:
            if n == 0:
                return 'returned'
            if n == 1:
                break
            if n == 2:
                continue
            if n == 3:
                raise ValueError('raised')
            print('body')
        finally:
            print('finally', n, i)
    else:
        return 'ended'
    return 'left'
for n in range(5):
    try:
        print(f(n))
    except ValueError as e:
        print('caught', e)
",
        out: "\
finally 0 0
returned
finally 1 0
left
finally 2 0
finally 2 1
ended
finally 3 0
caught raised
body
finally 4 0
body
finally 4 1
ended
",
        end: "finished",
        steps: 79,
        events: "\
0.0( 1 18 19 20 0.1( 2 3 4 5 14 ) 18 19 20 0.1( 2 3 4 6 7 14 17 ) 18 19 20 0.1( 2 3 4 6 8 9 14 \
2 3 4 6 8 9 14 2 16 ) 18 19 20 0.1( 2 3 4 6 8 10 11 14 ) !ValueError 21 22 18 19 20 0.1( 2 3 4 \
6 8 10 12 14 2 3 4 6 8 10 12 14 2 16 ) 18 )",
        arcs: "",
    },
    Row {
        title: "A `finally` suite that is left on each way out",
        source: "\
def f(n):
    for i in range(2):
        try:
            raise KeyError(i)
        finally:
            if n == 0:
                return 'returned'
            if n == 1:
                break
            if n == 2:
                continue
            raise ValueError(i)
    else:
        return 'ended'
    return 'left'
for n in range(4):
    try:
        print(f(n))
    except ValueError as e:
        print('caught', [e])
",
        out: "\
returned
left
ended
caught [ValueError(0)]
",
        end: "finished",
        steps: 56,
        events: "\
0.0( 1 16 17 18 0.1( 2 3 4 6 7 ) 16 17 18 0.1( 2 3 4 6 8 9 15 ) 16 17 18 0.1( 2 3 4 6 8 10 11 \
2 3 4 6 8 10 11 2 14 ) 16 17 18 0.1( 2 3 4 6 8 10 12 ) !ValueError 19 20 16 )",
        arcs: "",
    },
    Row {
        title: "A `return` through two `finally` suites",
        source: "\
def f():
    try:
        try:
            return 1
        finally:
            print('inner')
    finally:
        print('outer')
print(f())
",
        out: "\
inner
outer
1
",
        end: "finished",
        steps: 9,
        events: "0.0( 1 9 0.1( 2 3 4 6 8 ) )",
        arcs: "",
    },
    Row {
        title: "The value of a `return` is made before the `finally` suite",
        source: "\
def f():
    x = 1
    try:
        return x
    finally:
        x = 2
print(f())
",
        out: "1\n",
        end: "finished",
        steps: 0,
        events: "",
        arcs: "",
    },
    Row {
        title: "A thrown exception is thrown again behind a `finally` suite",
        source: "\
try:
    try:
        1 // 0
    finally:
        print('finally')
finally:
    print('outer')
",
        out: "\
finally
outer
",
        end: "ZeroDivisionError: division by zero",
        steps: 6,
        events: "0.0( 1 2 3 !ZeroDivisionError 5 !ZeroDivisionError 7 !ZeroDivisionError )",
        arcs: "",
    },
    Row {
        title: "A raised exception isn't thrown there",
        source: "\
try:
    raise ValueError(1)
finally:
    print('finally')
",
        out: "finally\n",
        end: "ValueError: 1",
        steps: 4,
        events: "0.0( 1 2 4 )",
        arcs: "",
    },
    Row {
        title: "The clauses don't hold for their `else`",
        source: "\
try:
    try:
        x = 1
    except ValueError:
        print('no')
    else:
        raise ValueError('else')
    finally:
        print('finally')
except ValueError as e:
    print(e)
",
        out: "\
finally
else
",
        end: "finished",
        steps: 8,
        events: "0.0( 1 2 3 7 9 10 11 )",
        arcs: "",
    },
    Row {
        title: "The first clause that catches",
        source: "\
def f(k):
    try:
        raise k
    except (KeyError, IndexError) as e:
        return 'tuple'
    except ArithmeticError:
        return 'above'
    except:
        return 'bare'
print(f(IndexError), f(ZeroDivisionError('x')), f(SystemExit), f(KeyError(1)))
",
        out: "tuple above bare tuple\n",
        end: "finished",
        steps: 26,
        events: "0.0( 1 10 0.1( 2 3 4 5 ) 0.1( 2 3 4 6 7 ) 0.1( 2 3 4 6 8 9 ) 0.1( 2 3 4 5 ) )",
        arcs: "",
    },
    Row {
        title: "No clause that catches",
        source: "\
try:
    1 // 0
except KeyError:
    print('no')
finally:
    print('finally')
print('never')
",
        out: "finally\n",
        end: "ZeroDivisionError: division by zero",
        steps: 5,
        events: "0.0( 1 2 !ZeroDivisionError 3 !ZeroDivisionError 6 !ZeroDivisionError )",
        arcs: "",
    },
    Row {
        title: "A raised exception that no clause catches is thrown",
        source: "\
try:
    raise ValueError
except KeyError:
    pass
",
        out: "",
        end: "ValueError",
        steps: 4,
        events: "0.0( 1 2 3 !ValueError )",
        arcs: "",
    },
    Row {
        title: "A bare `raise` raises the exception of its own clause",
        source: "\
try:
    try:
        raise KeyError('outer')
    except KeyError:
        try:
            1 // 0
        except ZeroDivisionError:
            print('inner')
        raise
except KeyError as e:
    print(e)
",
        out: "\
inner
'outer'
",
        end: "finished",
        steps: 12,
        events: "0.0( 1 2 3 4 5 6 !ZeroDivisionError 7 8 9 10 11 )",
        arcs: "",
    },
    Row {
        title: "A bare `raise` of a function that a clause calls",
        source: "\
def f():
    try:
        raise ValueError('f')
    except ValueError:
        raise
try:
    raise KeyError('k')
except KeyError:
    try:
        f()
    except ValueError as e:
        print(e)
    raise
",
        out: "f\n",
        end: "KeyError: 'k'",
        steps: 15,
        events: "0.0( 1 6 7 8 9 10 0.1( 2 3 4 5 ) !ValueError 11 12 13 )",
        arcs: "",
    },
    Row {
        title: "A clause of no kind",
        source: "\
try:
    try:
        raise KeyError
    except 5:
        print('no')
except TypeError as e:
    print(e)
",
        out: "not an exception kind\n",
        end: "finished",
        steps: 7,
        events: "0.0( 1 2 3 4 !TypeError 6 7 )",
        arcs: "",
    },
    Row {
        title: "An expression of a clause that raises",
        source: "\
try:
    try:
        raise KeyError
    except nothing:
        print('no')
    finally:
        print('finally')
except NameError as e:
    print(e)
",
        out: "\
finally
name 'nothing' is not defined
",
        end: "finished",
        steps: 8,
        events: "0.0( 1 2 3 4 !NameError 7 !NameError 8 9 )",
        arcs: "",
    },
    Row {
        title: "The name of a clause that is left by `break` is unset",
        source: "\
for i in range(1):
    try:
        raise KeyError('k')
    except KeyError as e:
        break
try:
    print(e)
except NameError as n:
    print(n)
",
        out: "name 'e' is not defined\n",
        end: "finished",
        steps: 10,
        events: "0.0( 1 2 3 4 5 6 7 !NameError 8 9 )",
        arcs: "",
    },
    Row {
        title: "The name of a clause of a function that raises is unset",
        source: "\
def f(e):
    try:
        try:
            raise KeyError('k')
        except KeyError as e:
            raise ValueError(e)
    except ValueError as v:
        print([v])
    return e
f(1)
",
        out: "[ValueError(KeyError('k'))]\n",
        end: "UnboundLocalError: local variable 'e' is not set",
        steps: 12,
        events: "0.0( 1 10 0.1( 2 3 4 5 6 7 8 9 !UnboundLocalError ) !UnboundLocalError )",
        arcs: "",
    },
    Row {
        title: "A clause that raises, and a `finally` suite",
        source: "\
try:
    try:
        raise KeyError(1)
    except KeyError:
        raise ValueError(2)
    finally:
        print('finally')
except ValueError as e:
    print(e)
",
        out: "\
finally
2
",
        end: "finished",
        steps: 9,
        events: "0.0( 1 2 3 4 5 7 8 9 )",
        arcs: "",
    },
    Row {
        title: "An exception through five frames",
        source: "\
def a(): raise ValueError('deep')
def b(): a()
def c(): b()
def d(): c()
def e(): d()
e()
",
        out: "",
        end: "ValueError: deep",
        steps: 17,
        events: "\
0.0( 1 2 3 4 5 6 0.5( 5 0.4( 4 0.3( 3 0.2( 2 0.1( 1 ) !ValueError ) !ValueError ) !ValueError \
) !ValueError ) !ValueError )",
        arcs: "",
    },
    Row {
        title: "A `raise` whose value raises, or is no exception",
        source: "\
try:
    raise nothing
except NameError as e:
    print(e)
raise 5
",
        out: "name 'nothing' is not defined\n",
        end: "TypeError: not an exception",
        steps: 6,
        events: "0.0( 1 2 !NameError 3 4 5 !TypeError )",
        arcs: "",
    },
    Row {
        title: "An assertion evaluates its reason where it fails",
        source: "\
def why():
    print('why')
    return 'reason'
assert 1, why()
assert 0, why()
",
        out: "why\n",
        end: "AssertionError: reason",
        steps: 7,
        events: "0.0( 1 4 5 0.1( 2 3 ) !AssertionError )",
        arcs: "",
    },
];

#[test]
fn runs_of_handlers(rt: HostRuntime) -> Result<(), Fail> {
    let found = wrong(rt.alloc(), &ROWS)?;
    assert_eq!(rt; found.as_str(), "");
    Ok(())
}
