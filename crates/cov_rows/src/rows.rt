//! Rows of one module: what `arcs s.py` writes, how it ends, and how many steps it takes.

use crate::harness::{NONE, answer_to, listed};
use std::alloc::Global;
use std::process::Abort;
use std::test::Fail;

/// A script, and what must come of it. The arcs are written after its output.
pub(crate) struct Row {
    pub(crate) title: &'static str,
    pub(crate) source: &'static str,
    pub(crate) out: &'static str,
    pub(crate) arcs: &'static str,
    pub(crate) status: u8,
    pub(crate) err: &'static str,
    pub(crate) steps: u64,
}

/// The row as it stands, with just as many steps as it takes, and with one fewer.
pub(crate) fn assert_row(rt: &impl Abort, alloc: Global, row: &Row) -> Result<(), Fail> {
    let files = [("s.py", row.source)];
    let wanted = listed(alloc, row.out, "s.py", row.arcs)?;
    let enough = format!(in alloc; "arcs --budget={} s.py", row.steps)?;
    for words in ["arcs s.py", enough.as_str()] {
        let found = answer_to(alloc, words, &files, "", NONE)?;
        assert_eq!(rt; found.status, row.status, "{}", row.title);
        assert_eq!(rt; found.out.as_str(), wanted.as_str(), "{}", row.title);
        assert_eq!(rt; found.err.as_str(), row.err, "{}", row.title);
    }
    let fewer = row.steps.saturating_sub(1);
    let words = format!(in alloc; "arcs --budget {fewer} s.py")?;
    let found = answer_to(alloc, words.as_str(), &files, "", NONE)?;
    let wanted = format!(in alloc; "coverage: budget of {fewer} steps is spent\n")?;
    assert_eq!(rt; found.status, 75, "{}", row.title);
    assert_eq!(rt; found.err.as_str(), wanted.as_str(), "{}", row.title);
    Ok(())
}
