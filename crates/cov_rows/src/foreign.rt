//! Data that the command didn't save.

use crate::harness::{NONE, World, shelf_of};
use crate::sources::FIRST_RUN;
use cov_vault::Content;
use std::alloc::{AllocError, Global};
use std::test::Fail;

/// The content of the data file, what is asked, and what is told of it.
struct Row {
    title: &'static str,
    row: Option<u64>,
    words: &'static str,
    err: &'static str,
}

static ROWS: [Row; 6] = [
    Row {
        title: "Another schema is reported",
        row: None,
        words: "report",
        err: "coverage: bad data .coverage: not schema 7\n",
    },
    Row {
        title: "Another schema is the target of a run",
        row: None,
        words: "run a.py",
        err: "coverage: bad data .coverage: not schema 7\n",
    },
    Row {
        title: "A bad row is reported",
        row: Some(0),
        words: "report",
        err: "coverage: bad data .coverage: row 0\n",
    },
    Row {
        title: "A bad row is appended to",
        row: Some(0),
        words: "run --append a.py",
        err: "coverage: bad data .coverage: row 0\n",
    },
    Row {
        title: "A bad row is replaced",
        row: Some(0),
        words: "run a.py",
        err: "",
    },
    Row {
        title: "Another schema is annotated",
        row: None,
        words: "annotate a.py",
        err: "coverage: bad data .coverage: not schema 7\n",
    },
];

/// A data file that can't be read, for this row or as a whole.
fn bad(alloc: Global, row: Option<u64>) -> Result<Vec<(String, Content)>, AllocError> {
    let content = match row {
        None => Content::NotSchema7,
        Some(row) => Content::BadRow(row),
    };
    let mut contents = Vec::new(alloc);
    contents.push((String::from_str(alloc, ".coverage")?, content))?;
    Ok(contents)
}

#[test]
fn foreign_data(rt: HostRuntime) -> Result<(), Fail> {
    let alloc = rt.alloc();
    for row in &ROWS {
        let files = shelf_of(alloc, &[("a.py", FIRST_RUN)])?;
        let mut world = World::new(alloc, files, bad(alloc, row.row)?, NONE)?;
        let found = world.answer(alloc, row.words, "")?;
        assert_eq!(&rt; found.err.as_str(), row.err, "{}", row.title);
    }
    Ok(())
}
