//! Sources at the edges of the limits.

use crate::harness::{Answer, NONE, answer_by};
use py_machine::Machine;
use std::alloc::{AllocError, Global};
use std::test::Fail;

/// What comes of the words, where the file `s.py` holds these bytes.
fn answer_to_bytes(alloc: Global, words: &str, source: Vec<u8>) -> Result<Answer, Fail> {
    let mut files = Vec::new(alloc);
    files.push((String::from_str(alloc, "s.py")?, source))?;
    answer_by(alloc, words, files, "", NONE, &mut Machine)
}

/// A zero in that many pairs of parentheses.
fn nested_zero(alloc: Global, pairs: usize) -> Result<Vec<u8>, AllocError> {
    let mut source = vec![in alloc; b'('; pairs]?;
    source.push(b'0')?;
    for _ in 0..pairs {
        source.push(b')')?;
    }
    Ok(source)
}

/// That many suites inside each other.
fn nested_suites(alloc: Global, suites: usize) -> Result<Vec<u8>, AllocError> {
    let mut source = Vec::new(alloc);
    for depth in 0..suites {
        for _ in 0..depth {
            source.push(b' ')?;
        }
        source.extend_from_slice(b"if 1:\n")?;
    }
    for _ in 0..suites {
        source.push(b' ')?;
    }
    source.extend_from_slice(b"x = 1\n")?;
    Ok(source)
}

/// So many pairs of parentheses, the status, and what is told.
static PARENTHESES: [(&str, usize, u8, &str); 3] = [
    ("As many as there may be", 199, 0, ""),
    (
        "One too many",
        200,
        1,
        "coverage: limit Expressions passed: 201\n",
    ),
    (
        "Far too many",
        500_000,
        1,
        "coverage: limit Expressions passed: 201\n",
    ),
];

/// The same of suites.
static SUITES: [(&str, usize, u8, &str); 2] = [
    ("As many as there may be", 64, 0, ""),
    ("One too many", 65, 1, "coverage: limit Suites passed: 65\n"),
];

#[test]
fn depth_has_limits(rt: HostRuntime) -> Result<(), Fail> {
    let alloc = rt.alloc();
    for (title, pairs, status, wanted) in &PARENTHESES {
        let found = answer_to_bytes(alloc, "arcs s.py", nested_zero(alloc, *pairs)?)?;
        assert_eq!(&rt; found.status, *status, "{title}");
        assert_eq!(&rt; found.err.as_str(), *wanted, "{title}");
    }
    for (title, suites, status, wanted) in &SUITES {
        let found = answer_to_bytes(alloc, "arcs s.py", nested_suites(alloc, *suites)?)?;
        assert_eq!(&rt; found.status, *status, "{title}");
        assert_eq!(&rt; found.err.as_str(), *wanted, "{title}");
    }
    Ok(())
}

/// A file of this byte so many times, the status, and what is told.
static SIZES: [(&str, u8, usize, u8, &str); 4] = [
    ("As many bytes as there may be", b'#', 1_048_576, 0, ""),
    (
        "One byte too many",
        b'#',
        1_048_577,
        1,
        "coverage: limit FileBytes passed: 1048577\n",
    ),
    ("As many lines as there may be", b'\n', 65_535, 0, ""),
    (
        "One line too many",
        b'\n',
        65_536,
        1,
        "coverage: limit Lines passed: 65536\n",
    ),
];

#[test]
fn files_and_lines_have_limits(rt: HostRuntime) -> Result<(), Fail> {
    let alloc = rt.alloc();
    for (title, byte, count, status, wanted) in &SIZES {
        let found = answer_to_bytes(alloc, "arcs s.py", vec![in alloc; *byte; *count]?)?;
        assert_eq!(&rt; found.status, *status, "{title}");
        assert_eq!(&rt; found.err.as_str(), *wanted, "{title}");
    }
    Ok(())
}

#[test]
fn many_statements_in_one_line(rt: HostRuntime) -> Result<(), Fail> {
    let alloc = rt.alloc();
    let mut source = Vec::from_slice(alloc, b"x=1")?;
    for _ in 1..262_144 {
        source.extend_from_slice(b";x=1")?;
    }
    assert_eq!(&rt; source.len(), 1_048_575);
    let again = source.clone()?;
    let found = answer_to_bytes(alloc, "arcs --budget=262145 s.py", source)?;
    assert_eq!(&rt; found.status, 0);
    assert_eq!(&rt; found.out.as_str(), "s.py -1 1\ns.py 1 -1\n");
    let found = answer_to_bytes(alloc, "arcs --budget=262144 s.py", again)?;
    assert_eq!(&rt; found.status, 75);
    Ok(())
}

/// A script that imports that many empty modules.
fn many_modules(alloc: Global, count: usize) -> Result<Answer, Fail> {
    let mut script = Vec::new(alloc);
    let mut files = Vec::new(alloc);
    for at in 0..count {
        let import = format!(in alloc; "import m{at}\n")?;
        script.extend_from_slice(import.as_bytes())?;
        files.push((format!(in alloc; "m{at}.py")?, Vec::new(alloc)))?;
    }
    files.push((String::from_str(alloc, "s.py")?, script))?;
    answer_by(alloc, "arcs s.py", files, "", NONE, &mut Machine)
}

#[test]
fn modules_have_a_limit(rt: HostRuntime) -> Result<(), Fail> {
    let alloc = rt.alloc();
    let found = many_modules(alloc, 255)?;
    assert_eq!(&rt; found.status, 0);
    let found = many_modules(alloc, 256)?;
    assert_eq!(&rt; found.status, 1);
    assert_eq!(&rt; found.err.as_str(), "coverage: limit Modules passed: 257\n");
    Ok(())
}

/// A script that imports sixteen modules: with it they hold 16,777,216 bytes, and the last one so
/// many more.
fn many_bytes(alloc: Global, more: usize) -> Result<Answer, Fail> {
    let mut script = Vec::new(alloc);
    let mut files = Vec::new(alloc);
    for at in 0..16 {
        let import = format!(in alloc; "import m{at}\n")?;
        script.extend_from_slice(import.as_bytes())?;
        let count = if at < 15 { 1_048_576 } else { more };
        files.push((format!(in alloc; "m{at}.py")?, vec![in alloc; b'#'; count]?))?;
    }
    let left = 1_048_576_usize.saturating_sub(script.len());
    script.extend_from_slice(&vec![in alloc; b'#'; left]?)?;
    files.push((String::from_str(alloc, "s.py")?, script))?;
    answer_by(alloc, "arcs s.py", files, "", NONE, &mut Machine)
}

#[test]
fn bytes_have_a_limit(rt: HostRuntime) -> Result<(), Fail> {
    let alloc = rt.alloc();
    let found = many_bytes(alloc, 0)?;
    assert_eq!(&rt; found.status, 0);
    let found = many_bytes(alloc, 1)?;
    assert_eq!(&rt; found.status, 1);
    assert_eq!(&rt;
        found.err.as_str(),
        "coverage: limit TotalBytes passed: 16777217\n"
    );
    Ok(())
}
