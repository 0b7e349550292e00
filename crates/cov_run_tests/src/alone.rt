//! Sources that are read alone, and texts that aren't read as Python.

use crate::rows::refused;
use cov_outside::MemShelf;
use cov_run::{check_text, load_source, source_of_text};
use cov_why::Why;
use std::alloc::Global;
use std::test::Fail;

/// A title, the bytes of `s.py`, the file that is read, the calls of the shelf that fail, and what
/// comes of it.
type Row<'a> = (&'a str, &'a [u8], &'a str, &'a [u64], &'a str);

const ROWS: [Row<'static>; 6] = [
    ("Read", b"x = 1\n", "s.py", &[], "6 bytes, 1 statements"),
    ("Absent", b"", "t.py", &[], "NoSource(\"t.py\")"),
    ("Failed", b"", "s.py", &[0], "ShelfFault"),
    (
        "No text",
        b"\n\xff\n",
        "s.py",
        &[],
        "Syntax(\"s.py\", 2, BadCharacter)",
    ),
    (
        "No tree",
        b"x = (1\n",
        "s.py",
        &[],
        "Syntax(\"s.py\", 1, OpenBracket)",
    ),
    (
        "Scopes",
        b"break\n",
        "s.py",
        &[],
        "Syntax(\"s.py\", 1, BreakOutside)",
    ),
];

#[test]
fn sources_read_alone(rt: HostRuntime) -> Result<(), Fail> {
    let alloc = rt.alloc();
    for (title, bytes, name, failing, wanted) in &ROWS {
        let mut files = Vec::new(alloc);
        files.push((
            String::from_str(alloc, "s.py")?,
            Vec::from_slice(alloc, bytes)?,
        ))?;
        let mut shelf = MemShelf::new(alloc, files, Vec::from_slice(alloc, failing)?);
        let told = match load_source(alloc, name, &mut shelf) {
            Ok(source) => {
                let (bytes, statements) = (source.text.len(), source.module.body.len());
                format!(in alloc; "{bytes} bytes, {statements} statements")?
            }
            Err(why) => refused(alloc, &why)?,
        };
        assert_eq!(&rt; told.as_str(), *wanted, "{title}");
    }
    Ok(())
}

#[test]
fn texts_in_memory(rt: HostRuntime) -> Result<(), Fail> {
    let alloc = rt.alloc();
    let statements = match source_of_text(alloc, "made.py", "t = 0\nprint(t)\n") {
        Ok(source) => source.module.body.len(),
        Err(_) => 0,
    };
    assert_eq!(&rt; statements, 2, "Read");
    let told = match source_of_text(alloc, "made.py", "t = \n") {
        Ok(_) => String::new(alloc),
        Err(why) => refused(alloc, &why)?,
    };
    assert_eq!(&rt;
        told.as_str(),
        "Syntax(\"made.py\", 1, Unexpected)",
        "No tree"
    );
    Ok(())
}

fn checked(alloc: Global, bytes: &[u8]) -> Result<String, Fail> {
    if bytes.len() > 1_048_576 {
        return Ok(String::new(alloc));
    }
    match check_text(alloc, "c", bytes) {
        Ok(text) => Ok(String::from_str(alloc, text)?),
        Err(why) => refused(alloc, &why),
    }
}

#[test]
fn texts_of_commands(rt: HostRuntime) -> Result<(), Fail> {
    let alloc = rt.alloc();
    let told = checked(alloc, b"erase ((\n")?;
    assert_eq!(&rt; told.as_str(), "erase ((\n", "No Python");
    let told = checked(alloc, b"erase\n\n\xc3(\n")?;
    assert_eq!(&rt; told.as_str(), "Syntax(\"c\", 3, BadCharacter)", "No text");
    let mut lines = Vec::new(alloc);
    for _ in 0..65_536 {
        lines.push(b'\n')?;
    }
    let told = checked(alloc, lines.as_slice())?;
    assert_eq!(&rt; told.as_str(), "Limit(Lines, 65536)", "Lines");
    Ok(())
}

/// What refuses a command, and what doesn't.
#[test]
fn refusals(rt: HostRuntime) -> Result<(), Fail> {
    let alloc = rt.alloc();
    for (why, status, refuses, text) in [
        (
            Why::Budget(5),
            75,
            false,
            "coverage: budget of 5 steps is spent\n",
        ),
        (
            Why::Under(1, 4),
            2,
            false,
            "coverage: 1 of 4 covered is under 80 percent\n",
        ),
        (Why::Program(3), 3, false, "80"),
        (
            Why::Usage(1),
            1,
            true,
            "coverage: usage: stopped after 1 words\n",
        ),
        (Why::VaultFault, 74, true, "coverage: data store failed\n"),
        (Why::NoMemory, 70, true, "coverage: no memory\n"),
        (Why::Tests(1, 0, 1), 1, false, ""),
    ] {
        let told = why.message(alloc, "80")?;
        assert_eq!(&rt; told.as_str(), text);
        assert_eq!(&rt; why.status(), status);
        assert_eq!(&rt; why.is_refusal(), refuses);
    }
    Ok(())
}
