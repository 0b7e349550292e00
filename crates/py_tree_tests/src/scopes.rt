// Which modules are well formed, and the names of functions, row by row of their source.

use crate::writer::Writer;
use py_parse::parse;
use py_scope::{ScopeError, Scopes, check};
use py_syntax::Module;
use py_text::Text;
use py_token::{LINE_LIMIT, count_lines, tokens};
use std::alloc::{AllocError, Global};
use std::test::Fail;

/// A source, with its fault, if there is one.
type Row = (&'static str, Option<ScopeError>);

static ROWS: [Row; 24] = [
    // jumps stand in loops of their function
    ("a\nbreak\n", Some(ScopeError::BreakOutside(2))),
    ("while x:\n  break\n", None),
    (
        "while x:\n  pass\nelse:\n  continue\n",
        Some(ScopeError::BreakOutside(4)),
    ),
    (
        "while x:\n  def f():\n    break\n",
        Some(ScopeError::BreakOutside(3)),
    ),
    // `return` stands in a function, a bare `raise` where an exception is handled
    ("return 1\n", Some(ScopeError::ReturnOutside(1))),
    ("def f():\n  return 1\n", None),
    ("a\n\nraise\n", Some(ScopeError::ReturnOutside(3))),
    ("try:\n  a\nexcept:\n  raise\n", None),
    (
        "try:\n  a\nfinally:\n  raise\n",
        Some(ScopeError::ReturnOutside(4)),
    ),
    (
        "try:\n  a\nexcept E:\n  try:\n    b\n  finally:\n    raise\n",
        Some(ScopeError::ReturnOutside(7)),
    ),
    // `global` stands in front of every use in its body
    ("x\nglobal x\n", Some(ScopeError::GlobalAfterUse(2))),
    ("x = 1\nglobal x\n", Some(ScopeError::GlobalAfterUse(2))),
    ("global x\nglobal x\nx\n", None),
    ("y\nglobal x\n", None),
    (
        "def f(x, y):\n  global y\n",
        Some(ScopeError::GlobalAfterUse(2)),
    ),
    ("x\ndef f(a):\n  global x\n", None),
    // no function stands in a function
    (
        "def f():\n  def g():\n    pass\n",
        Some(ScopeError::NestedFunction(2)),
    ),
    // what catches or matches everything stands last
    (
        "try:\n  a\nexcept:\n  b\nexcept E:\n  c\n",
        Some(ScopeError::EarlyIrrefutable(3)),
    ),
    ("try:\n  a\nexcept E:\n  b\nexcept:\n  c\n", None),
    (
        "match x:\n  case a:\n    pass\n  case _:\n    pass\n",
        Some(ScopeError::EarlyIrrefutable(2)),
    ),
    (
        "match x:\n  case a if 1:\n    pass\n  case _:\n    pass\n",
        None,
    ),
    (
        "match x:\n  case _ | 1:\n    pass\n",
        Some(ScopeError::EarlyIrrefutable(2)),
    ),
    // no name is given twice
    (
        "match x:\n  case [a, a]:\n    pass\n",
        Some(ScopeError::TwiceNamed(2)),
    ),
    (
        "match x:\n  case 1 | a:\n    pass\n",
        Some(ScopeError::TwiceNamed(2)),
    ),
];

/// Sources with several faults: the earliest line is answered, and on one line the smallest number.
static FIRST: [Row; 4] = [
    ("break\nreturn 1\n", Some(ScopeError::BreakOutside(1))),
    ("a; return 1; break\n", Some(ScopeError::BreakOutside(1))),
    (
        "def f(a):\n  def g(a, a): global a\n",
        Some(ScopeError::GlobalAfterUse(2)),
    ),
    ("def f(a, a): pass\n", Some(ScopeError::TwiceNamed(1))),
];

/// The module of a short source.
fn module(alloc: Global, source: &str) -> Result<Module, Fail> {
    if count_lines(source) > LINE_LIMIT {
        return Err(AllocError.into());
    }
    Ok(parse(alloc, &tokens(alloc, source)?)?)
}

/// The fault of a source, if there is one.
fn fault(alloc: Global, source: &str) -> Result<Option<ScopeError>, Fail> {
    match check(alloc, &module(alloc, source)?) {
        Ok(_) => Ok(None),
        Err(error) => Ok(Some(error)),
    }
}

#[test]
fn faults_are_as_the_rows_say(rt: HostRuntime) -> Result<(), Fail> {
    for (i, row) in ROWS.iter().enumerate() {
        let found = fault(rt.alloc(), row.0)?;
        assert!(rt; found == row.1, "row {i}");
    }
    for (i, row) in FIRST.iter().enumerate() {
        let found = fault(rt.alloc(), row.0)?;
        assert!(rt; found == row.1, "row {i} of several faults");
    }
    Ok(())
}

#[test]
fn names_of_a_function(rt: HostRuntime) -> Result<(), Fail> {
    let alloc = rt.alloc();
    let source = "def f(a, b):\n  global g\n  g = 1\n  c = 1\n  d\n";
    let scopes = check(alloc, &module(alloc, source)?)?;
    assert_eq!(rt;
        names_in(alloc, &scopes)?.as_str(),
        "a local, b local, c local, d , g global, "
    );
    assert_eq!(rt; scopes.len(), 1);
    Ok(())
}

/// What the names of the first function are, written down.
fn names_in(alloc: Global, scopes: &Scopes) -> Result<String, Fail> {
    let mut out = Writer::new(alloc);
    if let Some(names) = scopes.function(0) {
        for x in ["a", "b", "c", "d", "g"] {
            let name = Text::from_str(alloc, x)?;
            out.put(x);
            out.put(if names.is_local(&name) { " local" } else { " " });
            out.put(if names.is_global(&name) { "global" } else { "" });
            out.put(", ");
        }
    }
    out.done()
}
