//! Sources that are refused, each by its first fault.

use crate::rows::{Files, assert_refused};
use std::test::Fail;

/// A source, and the line and kind of its fault.
static REFUSED: [(&str, &str, u32, &str); 22] = [
    ("Number with a point", "x = 1.5", 1, "BadCharacter"),
    ("Wide number", "x = 9223372036854775808", 1, "WideNumber"),
    ("Return outside", "return 1", 1, "ReturnOutside"),
    ("Indentation", "if 1:\n    x = 1\n  y = 2", 3, "BadIndent"),
    ("Open bracket", "x = (1", 1, "OpenBracket"),
    ("Open string", "x = \"a", 1, "OpenString"),
    ("Name after a name", "x = 1\nx y", 2, "Unexpected"),
    ("Conversion in a field", "f\"{x!r}\"", 1, "BadCharacter"),
    ("Field without an end", "f\"{x\"", 1, "BadCharacter"),
    ("Brace without a field", "f\"}\"", 1, "BadCharacter"),
    ("Empty field", "f\"{}\"", 1, "Unexpected"),
    ("Format in a field", "f\"{x:>5}\"", 1, "Unexpected"),
    ("Raw f-string", "rf\"{x}\"", 1, "Unexpected"),
    ("Open f-string", "f\"{x", 1, "OpenString"),
    (
        "Parameter after a default",
        "def f(a=1, b): pass",
        1,
        "Unexpected",
    ),
    ("Break outside", "x = 1\nbreak", 2, "BreakOutside"),
    (
        "Global after use",
        "def f():\n    x = 1\n    global x",
        3,
        "GlobalAfterUse",
    ),
    (
        "Nested function",
        "def f():\n    def g(): pass",
        2,
        "NestedFunction",
    ),
    (
        "Early clause",
        "try: pass\nexcept: pass\nexcept KeyError: pass",
        2,
        "EarlyIrrefutable",
    ),
    ("Twice named", "def f(a, a): pass", 1, "TwiceNamed"),
    (
        "Fault of tokens before one of the tree",
        "x = = 1\ny = 1.5",
        2,
        "BadCharacter",
    ),
    (
        "Fault of the tree before one of scopes",
        "break\nx = = 1",
        2,
        "Unexpected",
    ),
];

#[test]
fn refused_sources(rt: HostRuntime) -> Result<(), Fail> {
    let alloc = rt.alloc();
    for (title, source, line, kind) in &REFUSED {
        let answer = format!(in alloc; "Syntax(\"s.py\", {line}, {kind})")?;
        assert_refused(&rt, alloc, *title, *source, answer.as_str())?;
    }
    Ok(())
}

#[test]
fn bytes_that_are_no_text(rt: HostRuntime) -> Result<(), Fail> {
    let alloc = rt.alloc();
    let mut files = Files::new(alloc);
    files.put(alloc, "s.py", Vec::from_slice(alloc, b"\x78\x0a\xff")?)?;
    let told = files.load(alloc, "s.py", &[])?;
    assert_eq!(&rt; told.as_str(), "Syntax(\"s.py\", 2, BadCharacter)");
    let files = Files::new(alloc);
    let told = files.load(alloc, "d/s.py", &[])?;
    assert_eq!(&rt; told.as_str(), "NoSuchFile(\"d/s.py\")");
    Ok(())
}
