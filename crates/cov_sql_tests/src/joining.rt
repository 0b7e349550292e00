//! Data that are read of bases, and joined.

use crate::bases::{START, held_saved, run};
use crate::texts::{data_of, shown};
use cov_data::{Data, DataError};
use cov_sql::{Counted, SqlError, read_data};
use sqlite::{Connection, MemStore};
use std::alloc::{AllocError, Global};
use std::test::Fail;

const ARCS: &str = "INSERT INTO arc VALUES (1, 1, 1, 2), (1, 1, 2, -1);
CREATE TABLE hits (file_id, context_id, fromno, tono, count);
INSERT INTO hits VALUES (1, 1, 1, 2, 4294967295)";

const LINES: &str = "INSERT INTO line_bits VALUES (1, 1, x'02')";

fn read_in(alloc: Global, base: &mut Connection<MemStore>, text: &str) -> Result<Data, SqlError> {
    if run(base, &[START, text]).is_err() {
        return Err(SqlError::Refused);
    }
    read_data(alloc, base, &mut Counted::new())
}

/// The data of a base that this text fills.
fn read(alloc: Global, text: &str) -> Result<Data, SqlError> {
    let mut base = Connection::open_in_memory(alloc)?;
    read_in(alloc, &mut base, text)
}

#[test]
fn arcs_and_lines_are_not_mixed(rt: HostRuntime) -> Result<(), Fail> {
    let alloc = rt.alloc();
    let arcs = read(alloc, ARCS)?;
    let mut lines = read(alloc, LINES)?;
    assert_eq!(rt;
        lines.union(&arcs),
        Err(DataError::Mixed {
            mine: false,
            other: true
        })
    );
    let found = shown(alloc, &lines)?;
    assert_eq!(rt; found.as_str(), "lines;a.py . 1 1 1;");
    Ok(())
}

fn held_by_saving(alloc: Global, content: &Data) -> Result<String, AllocError> {
    let mut base = Connection::open_in_memory(alloc)?;
    held_saved(alloc, &mut base, content, true)
}

#[test]
fn the_greatest_count_stays(rt: HostRuntime) -> Result<(), Fail> {
    let alloc = rt.alloc();
    let mut all = read(alloc, ARCS)?;
    let more = data_of(
        alloc,
        true,
        &[("a.py", "", 1, 2, 1), ("a.py", "c", 2, -1, 1)],
    )?;
    assert_eq!(rt; all.union(&more), Ok(()));
    let wanted = "arcs;a.py . 1 2 4294967295;a.py . 2 -1 1;a.py c 2 -1 1;";
    assert_eq!(rt; shown(alloc, &all)?.as_str(), wanted);
    assert_eq!(rt; held_by_saving(alloc, &all)?.as_str(), wanted);
    Ok(())
}
