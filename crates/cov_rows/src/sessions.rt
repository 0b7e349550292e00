//! Commands one after another, over the same files and data.

use crate::harness::World;
use std::alloc::Global;
use std::process::Abort;
use std::test::Fail;

/// Commands over files: the words of each, its status, and what it writes to `out` and to `err`.
pub(crate) struct Session {
    pub(crate) title: &'static str,
    pub(crate) files: &'static [(&'static str, &'static str)],
    pub(crate) commands: &'static [(&'static str, u8, &'static str, &'static str)],
}

/// Each command answers as its row says.
pub(crate) fn assert_session(
    rt: &impl Abort,
    alloc: Global,
    world: &mut World,
    row: &Session,
) -> Result<(), Fail> {
    for (words, status, out, err) in row.commands {
        let found = world.answer(alloc, *words, "")?;
        assert_eq!(rt; found.err.as_str(), *err, "{}: {words}", row.title);
        assert_eq!(rt; found.out.as_str(), *out, "{}: {words}", row.title);
        assert_eq!(rt; found.status, *status, "{}: {words}", row.title);
    }
    Ok(())
}
