//! Sources that are refused.

use crate::harness::{NONE, answer_by, answer_to};
use py_machine::Machine;
use std::test::Fail;

/// Sources, each with the line and the kind of its fault.
static REFUSED: [(&str, &str, &str); 35] = [
    ("Indentation", "if 1:\n    x = 1\n  y = 2\n", "3: BadIndent"),
    ("Open bracket", "x = (1", "1: OpenBracket"),
    ("Open string", "x = \"a", "1: OpenString"),
    ("A fraction", "x = 1.5", "1: BadCharacter"),
    ("A wide number", "x = 9223372036854775808", "1: WideNumber"),
    ("A conversion", "x = 1\ny = f\"{x!r}\"", "2: BadCharacter"),
    ("A field without an end", "f\"{x\"", "1: BadCharacter"),
    ("A brace alone", "f\"}\"", "1: BadCharacter"),
    ("Open f-string", "f\"{x", "1: OpenString"),
    ("No field", "f\"{}\"", "1: Unexpected"),
    ("A format", "x = 1\ny = f\"{x:>5}\"", "2: Unexpected"),
    ("A raw f-string", "x = 1\ny = rf\"{x}\"", "2: Unexpected"),
    ("Name after a name", "x = 1\nx y", "2: Unexpected"),
    (
        "Parameter after a default",
        "def f(a=1, b): pass",
        "1: Unexpected",
    ),
    ("A suite that is missing", "if 1:\nx = 1\n", "2: Unexpected"),
    ("No indent", "x = 1\n  y = 2\n", "2: Unexpected"),
    ("A comparison as a target", "a < b = c", "1: Unexpected"),
    ("A manager", "x = 1\n\nwith x: pass", "3: Unexpected"),
    ("A jump out of no loop", "x = 1\nbreak", "2: BreakOutside"),
    (
        "A turn of no loop",
        "while 1: x = 1\nelse: continue",
        "2: BreakOutside",
    ),
    ("A return from no function", "return 1", "1: ReturnOutside"),
    ("Nothing to raise again", "raise", "1: ReturnOutside"),
    ("A late declaration", "x = 1\nglobal x", "2: GlobalAfterUse"),
    (
        "A global parameter",
        "def f(a):\n    global a",
        "2: GlobalAfterUse",
    ),
    (
        "A function in a function",
        "def f():\n    def g(): pass",
        "2: NestedFunction",
    ),
    (
        "A clause after a bare one",
        "try: pass\nexcept: pass\nexcept KeyError: pass",
        "2: EarlyIrrefutable",
    ),
    (
        "A case after a name",
        "match 1:\n  case x: pass\n  case 2: pass",
        "2: EarlyIrrefutable",
    ),
    (
        "Two parameters of one name",
        "def f(a, a): pass",
        "1: TwiceNamed",
    ),
    (
        "An alternative that binds",
        "match 1:\n  case 1 | [x]: pass",
        "2: TwiceNamed",
    ),
    (
        "Two faults of scopes",
        "def f(a, a):\n    break\nreturn",
        "1: TwiceNamed",
    ),
    ("Tokens before trees", "x y\nz = ?", "2: BadCharacter"),
    ("Trees before scopes", "return\nx y", "2: Unexpected"),
    ("A star", "x = 1\nprint(*x)", "2: Unexpected"),
    ("A class", "class C: pass", "1: Unexpected"),
    ("A lambda", "f = lambda: 1", "1: Unexpected"),
];

#[test]
fn refused_sources(rt: HostRuntime) -> Result<(), Fail> {
    let alloc = rt.alloc();
    for (title, source, wanted) in &REFUSED {
        let found = answer_to(alloc, "arcs s.py", &[("s.py", *source)], "", NONE)?;
        let wanted = format!(in alloc; "coverage: s.py:{wanted}\n")?;
        assert_eq!(&rt; found.status, 1, "{title}");
        assert_eq!(&rt; found.out.as_str(), "", "{title}");
        assert_eq!(&rt; found.err.as_str(), wanted.as_str(), "{title}");
    }
    Ok(())
}

#[test]
fn bytes_that_are_no_text(rt: HostRuntime) -> Result<(), Fail> {
    let alloc = rt.alloc();
    let mut files = Vec::new(alloc);
    let bytes = Vec::from_slice(alloc, &[0x78, 0x0a, 0xff])?;
    files.push((String::from_str(alloc, "s.py")?, bytes))?;
    let found = answer_by(alloc, "arcs s.py", files, "", NONE, &mut Machine)?;
    assert_eq!(&rt; found.status, 1);
    assert_eq!(&rt; found.err.as_str(), "coverage: s.py:2: BadCharacter\n");
    Ok(())
}

/// Programs of several files, of which one is refused: the first that fails a check.
static PROGRAMS: [(&str, &[(&str, &str)], &str); 4] = [
    (
        "A module that isn't well formed",
        &[("s.py", "import m\n"), ("m.py", "x = 1\nreturn x\n")],
        "m.py:2: ReturnOutside",
    ),
    (
        "The script before its modules",
        &[("s.py", "import m\nbreak\n"), ("m.py", "x y\n")],
        "s.py:2: BreakOutside",
    ),
    (
        "The module that is imported first",
        &[
            ("s.py", "import b, a\n"),
            ("a.py", "x y\n"),
            ("b.py", "return\n"),
        ],
        "b.py:1: ReturnOutside",
    ),
    (
        "A module in the script's folder",
        &[("d/s.py", "import m\n"), ("m.py", ""), ("d/m.py", "?\n")],
        "d/m.py:1: BadCharacter",
    ),
];

#[test]
fn refused_programs(rt: HostRuntime) -> Result<(), Fail> {
    let alloc = rt.alloc();
    for (title, files, wanted) in &PROGRAMS {
        let words = format!(in alloc; "arcs {}", files[0].0)?;
        let found = answer_to(alloc, words.as_str(), *files, "", NONE)?;
        let wanted = format!(in alloc; "coverage: {wanted}\n")?;
        assert_eq!(&rt; found.status, 1, "{title}");
        assert_eq!(&rt; found.out.as_str(), "", "{title}");
        assert_eq!(&rt; found.err.as_str(), wanted.as_str(), "{title}");
    }
    Ok(())
}
