// Two versions of a program, and the changed lines of its modules.

use cov_outside::MemShelf;
use cov_run::{Loaded, load};
use cov_select::changed_by_path;
use py_text::NoMemory;
use std::alloc::{AllocError, Global};
use std::test::Fail;

/// The files of a program: names and texts, the script first.
type Files<'a> = &'a [(&'a str, &'a str)];

/// The old version of a program and the new one, and the changed lines of each old module.
struct Row {
    title: &'static str,
    old: Files<'static>,
    new: Files<'static>,
    changed: &'static str,
}

const ROWS: [Row; 5] = [
    Row {
        title: "One of two modules",
        old: &[("t.py", "import a\nx = 1\n"), ("a.py", "y = 1\nz = 2\n")],
        new: &[("t.py", "import a\nx = 1\n"), ("a.py", "y = 1\nz = 3\n")],
        changed: "t.py: a.py: 2 ",
    },
    Row {
        title: "Scripts of other names",
        old: &[("t.py", "import a\nx = 1\n"), ("a.py", "y = 1\n")],
        new: &[("s.py", "import a\nx = 2\n"), ("a.py", "y = 1\n")],
        changed: "t.py: 2 a.py: ",
    },
    Row {
        title: "Another module",
        old: &[("t.py", "import a\nx = 1\n"), ("a.py", "y = 1\n")],
        new: &[("t.py", "import b\nx = 1\n"), ("b.py", "y = 1\n")],
        changed: "t.py: 1 2 a.py: 1 ",
    },
    Row {
        title: "A module less",
        old: &[("t.py", "import a\nx = 1\n"), ("a.py", "y = 1\n")],
        new: &[("t.py", "x = 1\n")],
        changed: "t.py: 1 2 a.py: 1 ",
    },
    Row {
        title: "A module that marked nothing",
        old: &[("t.py", "import a\nx = 1\n"), ("a.py", "\"d\"\n")],
        new: &[("t.py", "import a\nx = 1\n"), ("a.py", "\"e\"\n")],
        changed: "t.py: 1 2 a.py: ",
    },
];

fn loaded(alloc: Global, files: Files) -> Result<Loaded, Fail> {
    let mut contents = Vec::new(alloc);
    for (name, text) in files {
        contents.push((
            String::from_str(alloc, name)?,
            Vec::from_slice(alloc, text.as_bytes())?,
        ))?;
    }
    let mut shelf = MemShelf::new(alloc, contents, Vec::new(alloc));
    let script = match files.first() {
        Some((name, _)) => *name,
        None => "",
    };
    match load(alloc, script, "__tests__", &mut shelf) {
        Ok(loaded) => Ok(loaded),
        Err(_) => Err(AllocError.into()),
    }
}

/// Each path with its lines.
fn words(alloc: Global, changed: &[(String, Vec<u32>)]) -> Result<String, NoMemory> {
    let mut text = String::new(alloc);
    for (path, lines) in changed {
        text.push_str(path.as_str())?;
        text.push_str(": ")?;
        for line in lines {
            let word = format!(in alloc; "{line} ")?;
            text.push_str(word.as_str())?;
        }
    }
    Ok(text)
}

#[test]
fn changed_lines_of_programs(rt: HostRuntime) -> Result<(), Fail> {
    let alloc = rt.alloc();
    for row in &ROWS {
        let old = loaded(alloc, row.old)?;
        let new = loaded(alloc, row.new)?;
        let changed = changed_by_path(
            alloc,
            &old.programs,
            &old.modules,
            &new.programs,
            &new.modules,
        )?;
        let text = words(alloc, &changed)?;
        assert_eq!(&rt; text.as_str(), row.changed, "{}", row.title);
    }
    Ok(())
}
