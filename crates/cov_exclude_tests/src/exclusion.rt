// Sources with pragmas, and the lines that they exclude or free of their branches.

use crate::texts::{BRANCH, COVER, IF, WHILE, patterns_of};
use cov_exclude::{excluded, no_branch};
use py_parse::parse;
use py_syntax::Module;
use py_token::{LINE_LIMIT, count_lines, tokens};
use std::alloc::Global;
use std::test::Fail;

/// The module of a source.
fn read(alloc: Global, source: &str) -> Result<Module, Fail> {
    if count_lines(source) > LINE_LIMIT {
        return Err(Fail::new("too many lines"));
    }
    match tokens(alloc, source) {
        Ok(tokens) => match parse(alloc, &tokens) {
            Ok(module) => Ok(module),
            Err(_) => Err(Fail::new("the source isn't read")),
        },
        Err(_) => Err(Fail::new("the source isn't read")),
    }
}

/// Lines as a text, each after a blank.
fn listed(alloc: Global, lines: &[u32]) -> Result<String, Fail> {
    let mut text = String::new(alloc);
    for line in lines {
        text.push_str(format!(in alloc; " {line}")?.as_str())?;
    }
    Ok(text)
}

/// The lines of a source that the patterns of these texts exclude.
fn excluded_by(alloc: Global, texts: &[&str], source: &str) -> Result<String, Fail> {
    let module = read(alloc, source)?;
    let patterns = patterns_of(alloc, texts)?;
    let lines = excluded(alloc, &patterns, &module, source)?;
    listed(alloc, &lines)
}

/// The lines of a source that the patterns of these texts free of their branches.
fn freed_by(alloc: Global, texts: &[&str], source: &str) -> Result<String, Fail> {
    let module = read(alloc, source)?;
    let patterns = patterns_of(alloc, texts)?;
    let lines = no_branch(alloc, &patterns, &module, source)?;
    listed(alloc, &lines)
}

/// A title, a source, and the lines that the default pattern excludes.
static EXCLUDED: [(&str, &str, &str); 27] = [
    (
        "Pragma",
        "debug = False\nif debug:  # pragma: no cover\n    print(1)\nelse:\n    print(2)\nwhile True:\n    break\n",
        " 2 3",
    ),
    (
        "elif",
        "if a:\n    b\nelif c:  # pragma: no cover\n    d\nelse:\n    e\n",
        " 3 4",
    ),
    (
        "else of an if",
        "if a:\n    b\nelse:  # pragma: no cover\n    c\n",
        " 4",
    ),
    (
        "for",
        "for a in b:  # pragma: no cover\n    c\nelse:\n    d\n",
        " 1 2",
    ),
    (
        "else of a for",
        "for a in b:\n    c\nelse:  # pragma: no cover\n    d\n",
        " 4",
    ),
    (
        "while",
        "while a:  # pragma: no cover\n    b\nelse:\n    c\n",
        " 1 2",
    ),
    (
        "else of a while",
        "while a:\n    b\nelse:  # pragma: no cover\n    c\n",
        " 4",
    ),
    (
        "try",
        "try:  # pragma: no cover\n    a\nexcept b:\n    c\nfinally:\n    d\n",
        " 1 2",
    ),
    (
        "except",
        "try:\n    a\nexcept b:  # pragma: no cover\n    c\nexcept:\n    d\n",
        " 3 4",
    ),
    (
        "a bare except",
        "try:\n    a\nexcept b:\n    c\nexcept:  # pragma: no cover\n    d\n",
        " 5 6",
    ),
    (
        "else of a try",
        "try:\n    a\nexcept:\n    b\nelse:  # pragma: no cover\n    c\n",
        " 6",
    ),
    (
        "finally",
        "try:\n    a\nfinally:  # pragma: no cover\n    b\n",
        " 4",
    ),
    (
        "case",
        "match a:\n    case 1:  # pragma: no cover\n        b\n    case c:\n        d\n",
        " 2 3",
    ),
    (
        "match",
        "match a:  # pragma: no cover\n    case 1:\n        b\n    case c:\n        d\ne\n",
        " 1 2 3 4 5",
    ),
    (
        "def",
        "def f(a):  # pragma: no cover\n    'text'\n    if a:\n        return 1\nf(1)\n",
        " 1 3 4",
    ),
    (
        "a header of two lines",
        "def f(a,\n      b):  # pragma: no cover\n    return 1\n",
        " 1 3",
    ),
    (
        "an if of two lines",
        "if (a and\n    b):  # pragma: no cover\n    c\nd\n",
        " 1 3",
    ),
    (
        "a suite in a suite",
        "if a:  # pragma: no cover\n    while b:\n        c\n    else:\n        d\ne\n",
        " 1 2 3 5",
    ),
    (
        "a suite on the line of its header",
        "if a: b  # pragma: no cover\nc\n",
        " 1",
    ),
    (
        "in the middle of a joined statement",
        "a = [\n    1,  # pragma: no cover\n]\nb = 2\n",
        " 1",
    ),
    (
        "at the end of one",
        "a = [\n    1,\n]  # pragma: no cover\nb = 2\n",
        " 1",
    ),
    (
        "a comment line inside one",
        "a = [\n    # pragma: no cover\n    1,\n]\nb = 2\n",
        " 1",
    ),
    (
        "two statements of one line",
        "a = 1; b = 2  # pragma: no cover\n",
        " 1",
    ),
    (
        "a comment line in no statement",
        "a = 1\n# pragma: no cover\nb = 2\n",
        "",
    ),
    (
        "a global",
        "def f():\n    global a  # pragma: no cover\n    a = 1\n",
        "",
    ),
    ("a docstring", "'text'  # pragma: no cover\na\n", ""),
    ("an empty text", "", ""),
];

#[test]
fn a_pragma_excludes_its_own_suite(rt: HostRuntime) -> Result<(), Fail> {
    for row in &EXCLUDED {
        let found = excluded_by(rt.alloc(), &[COVER], row.1)?;
        assert_eq!(rt; found.as_str(), row.2, "{}", row.0);
    }
    Ok(())
}

/// A title, a source, and its no-branch lines by the default patterns.
static FREED: [(&str, &str, &str); 8] = [
    (
        "if",
        "if a:  # pragma: no branch\n    b\nelif c:\n    d\n",
        " 1",
    ),
    (
        "else",
        "if a:\n    b\nelse:  # pragma: no branch\n    c\n",
        "",
    ),
    ("for", "for a in b:  # pragma: no branch\n    c\nd\n", " 1"),
    (
        "case",
        "match a:\n    case 1:  # pragma: no branch\n        b\n    case c:\n        d\n",
        " 2",
    ),
    (
        "a constant while",
        "debug = False\nwhile True:\n    break\n",
        " 2",
    ),
    ("a constant elif", "if a:\n    b\nelif 0:\n    c\n", " 3"),
    (
        "a joined statement",
        "a = [\n    1,  # pragma: no branch\n]\n",
        " 1",
    ),
    (
        "a pragma of the other kind",
        "if a:  # pragma: no cover\n    b\n",
        "",
    ),
];

#[test]
fn a_partial_pattern_frees_its_own_line(rt: HostRuntime) -> Result<(), Fail> {
    for row in &FREED {
        let found = freed_by(rt.alloc(), &[BRANCH, WHILE, IF], row.1)?;
        assert_eq!(rt; found.as_str(), row.2, "{}", row.0);
    }
    Ok(())
}

#[test]
fn a_line_is_matched_without_its_end(rt: HostRuntime) -> Result<(), Fail> {
    let source = "a = 1  # no\r\nb = 2  # no more\r\nc = 3  # no";
    let found = excluded_by(rt.alloc(), &["no$", "never"], source)?;
    assert_eq!(rt; found.as_str(), " 1 3");
    Ok(())
}
