//! Sources that are made up.

use crate::harness::{NONE, answer_to};
use std::test::Fail;

/// Words, and the numbers that are written of the source.
static ROWS: [(&str, &str); 2] = [
    (
        "make 0 0",
        "2 lines, 2 statements, 0 missing, 0 branches, 0 partial, 100%, 3 arcs, 3 steps",
    ),
    (
        "make 0 1",
        "4 lines, 4 statements, 1 missing, 2 branches, 1 partial, 67%, 4 arcs, 4 steps",
    ),
];

#[test]
fn made_sources(rt: HostRuntime) -> Result<(), Fail> {
    let alloc = rt.alloc();
    for (words, numbers) in &ROWS {
        let found = answer_to(alloc, *words, &[], "", NONE)?;
        let wanted = format!(in alloc; "{words}: {numbers}\n")?;
        assert_eq!(&rt; found.out.as_str(), wanted.as_str(), "{words}");
        assert_eq!(&rt; found.err.as_str(), "", "{words}");
        assert_eq!(&rt; found.status, 0, "{words}");
    }
    Ok(())
}
