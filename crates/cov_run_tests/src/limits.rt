//! The edges of the limits.

use crate::rows::{Files, assert_refused};
use std::alloc::Global;
use std::test::Fail;

/// The text, so many times.
fn repeated(alloc: Global, text: &str, times: usize) -> Result<String, Fail> {
    let mut all = String::new(alloc);
    for _ in 0..times {
        all.push_str(text)?;
    }
    Ok(all)
}

/// Suites in one another, so many.
fn suites(alloc: Global, depth: usize) -> Result<String, Fail> {
    let mut all = String::new(alloc);
    for at in 0..depth {
        for _ in 0..at {
            all.push(' ')?;
        }
        all.push_str("if 1:\n")?;
    }
    for _ in 0..depth {
        all.push(' ')?;
    }
    all.push_str("x = 1\n")?;
    Ok(all)
}

/// A zero in so many parentheses.
fn parentheses(alloc: Global, depth: usize) -> Result<String, Fail> {
    let mut all = repeated(alloc, "(", depth)?;
    all.push('0')?;
    let closing = repeated(alloc, ")", depth)?;
    all.push_str(closing.as_str())?;
    Ok(all)
}

#[test]
fn limits_of_one_file(rt: HostRuntime) -> Result<(), Fail> {
    let alloc = rt.alloc();
    let accepted = "__main__ s.py\n";
    for (title, source, answer) in [
        ("Parentheses", parentheses(alloc, 199)?, accepted),
        (
            "Parentheses too deep",
            parentheses(alloc, 200)?,
            "Limit(Expressions, 201)",
        ),
        (
            "Deep parentheses",
            parentheses(alloc, 500_000)?,
            "Limit(Expressions, 201)",
        ),
        ("Suites", suites(alloc, 64)?, accepted),
        ("Suites too deep", suites(alloc, 65)?, "Limit(Suites, 65)"),
        ("Lines", repeated(alloc, "\n", 65_535)?, accepted),
        (
            "Too many lines",
            repeated(alloc, "\n", 65_536)?,
            "Limit(Lines, 65536)",
        ),
        ("Bytes", repeated(alloc, "#", 1_048_576)?, accepted),
        (
            "Too many bytes",
            repeated(alloc, "#", 1_048_577)?,
            "Limit(FileBytes, 1048577)",
        ),
    ] {
        assert_refused(&rt, alloc, title, source.as_str(), answer)?;
    }
    Ok(())
}

/// A script that imports so many modules, each of which is one comment of so many bytes. `sized` of
/// them are of this size; the others are empty.
fn many_modules(alloc: Global, count: usize, size: usize, sized: usize) -> Result<String, Fail> {
    let mut files = Files::new(alloc);
    let mut script = String::new(alloc);
    for at in 0..count {
        let import = format!(in alloc; "import m{at}\n")?;
        script.push_str(import.as_str())?;
    }
    files.text(alloc, "s.py", script.as_str())?;
    for at in 0..count {
        let name = format!(in alloc; "m{at}.py")?;
        let source = repeated(alloc, "#", if at < sized { size } else { 0 })?;
        files.text(alloc, name.as_str(), source.as_str())?;
    }
    files.load(alloc, "s.py", &[])
}

/// So many modules of which so many have so many bytes, and the answer.
static PROGRAMS: [(&str, usize, usize, usize, &str); 2] = [
    ("A module too many", 256, 0, 0, "Limit(Modules, 257)"),
    (
        "Too many bytes in all",
        16,
        16,
        1_048_576,
        "Limit(TotalBytes, 16777382)",
    ),
];

#[test]
fn limits_of_a_program(rt: HostRuntime) -> Result<(), Fail> {
    let alloc = rt.alloc();
    for (title, count, sized, size, answer) in &PROGRAMS {
        let told = many_modules(alloc, *count, *size, *sized)?;
        assert_eq!(&rt; told.as_str(), *answer, "{title}");
    }
    let told = many_modules(alloc, 255, 1_048_576, 1)?;
    assert!(&rt;
        told.as_str().ends_with("\nm254 m254.py\n"),
        "as many as there may be"
    );
    Ok(())
}
