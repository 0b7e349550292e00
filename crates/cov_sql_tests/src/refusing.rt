//! Savings that are refused, and leave the base as it was.

use crate::bases::{START, held, run, save};
use crate::texts::{Given, data_of};
use cov_data::Data;
use cov_sql::SqlError;
use sqlite::{Connection, Error, MemStore};
use std::alloc::{AllocError, Global};
use std::process::Abort;
use std::test::Fail;

/// A base and how saving in it is refused.
struct Row {
    title: &'static str,
    base: &'static [&'static str],
    fresh: bool,
    error: SqlError,
    /// What the base holds before and after.
    holds: &'static str,
}

const OLD: &str = "INSERT INTO meta VALUES ('has_arcs', '1'); INSERT INTO arc VALUES (1, 1, 1, 2)";

static REFUSED: [Row; 15] = [
    Row {
        title: "Another schema",
        base: &[START, OLD, "UPDATE coverage_schema SET version = 6"],
        fresh: false,
        error: SqlError::NotSchema7,
        holds: "NotSchema7",
    },
    Row {
        title: "No table",
        base: &[],
        fresh: false,
        error: SqlError::NotSchema7,
        holds: "NotSchema7",
    },
    Row {
        title: "A table is missing",
        base: &[START, OLD, "DROP TABLE tracer"],
        fresh: false,
        error: SqlError::NotSchema7,
        holds: "NotSchema7",
    },
    Row {
        title: "A column is missing",
        base: &[
            START,
            OLD,
            "DROP TABLE line_bits; CREATE TABLE line_bits (file_id, context_id)",
        ],
        fresh: false,
        error: SqlError::NotSchema7,
        holds: "NotSchema7",
    },
    Row {
        title: "A view in place of a table",
        base: &[
            START,
            OLD,
            "DROP TABLE tracer; CREATE VIEW tracer AS SELECT 1 AS file_id, 'x' AS tracer",
        ],
        fresh: false,
        error: SqlError::NotSchema7,
        holds: "NotSchema7",
    },
    Row {
        title: "A view in place of the counts",
        base: &[
            START,
            OLD,
            "CREATE VIEW hits AS
               SELECT 1 AS file_id, 1 AS context_id, 1 AS fromno, 2 AS tono, 9 AS count",
        ],
        fresh: false,
        error: SqlError::Refused,
        holds: "arcs;a.py . 1 2 1;",
    },
    Row {
        title: "A data file as a fresh one",
        base: &[START, OLD],
        fresh: true,
        error: SqlError::Refused,
        holds: "arcs;a.py . 1 2 1;",
    },
    Row {
        title: "A fresh one with a table",
        base: &["CREATE TABLE Tracer (x)"],
        fresh: true,
        error: SqlError::Refused,
        holds: "NotSchema7",
    },
    Row {
        title: "A fresh one with counts",
        base: &["CREATE TABLE hits (x)"],
        fresh: true,
        error: SqlError::Refused,
        holds: "NotSchema7",
    },
    Row {
        title: "Counts without a column",
        base: &[
            START,
            OLD,
            "CREATE TABLE hits (file_id, context_id, fromno, tono)",
        ],
        fresh: false,
        error: SqlError::Refused,
        holds: "arcs;a.py . 1 2 1;",
    },
    Row {
        title: "A count that the base refuses",
        base: &[
            START,
            OLD,
            "CREATE TABLE hits (file_id, context_id, fromno, tono, count check (count < 2))",
        ],
        fresh: false,
        error: SqlError::Refused,
        holds: "arcs;a.py . 1 2 1;",
    },
    Row {
        title: "An arc that the base refuses",
        base: &[
            START,
            "DROP TABLE arc;
             CREATE TABLE arc (file_id, context_id, fromno check (fromno < 4), tono)",
            OLD,
        ],
        fresh: false,
        error: SqlError::Refused,
        holds: "arcs;a.py . 1 2 1;",
    },
    Row {
        title: "A flag that the base refuses",
        base: &[
            START,
            "DROP TABLE meta; CREATE TABLE meta (key text, value text, more text not null)",
            "INSERT INTO meta VALUES ('has_arcs', '1', 'x'); INSERT INTO arc VALUES (1, 1, 1, 2)",
        ],
        fresh: false,
        error: SqlError::Refused,
        holds: "arcs;a.py . 1 2 1;",
    },
    Row {
        title: "A file that further rows refer to",
        base: &[
            START,
            OLD,
            "CREATE TABLE further (id integer references file (id)); INSERT INTO further VALUES (1)",
        ],
        fresh: false,
        error: SqlError::Refused,
        holds: "arcs;a.py . 1 2 1;",
    },
    Row {
        title: "A column that must not be empty",
        base: &[
            START,
            "DROP TABLE context;
             CREATE TABLE context (id integer primary key, context text, more text not null);
             INSERT INTO context VALUES (1, '', 'x')",
            OLD,
        ],
        fresh: false,
        error: SqlError::Refused,
        holds: "arcs;a.py . 1 2 1;",
    },
];

const NEW: [Given; 2] = [("b.py", "c", 3, 4, 1), ("b.py", "c", 4, 5, 2)];

/// How many tables and indices there are.
fn objects(base: &mut Connection<MemStore>) -> Result<i64, Error> {
    base.query_row("SELECT count(*) FROM sqlite_master", &[])?
        .get(0)
}

fn assert_held(
    rt: &impl Abort,
    alloc: Global,
    base: &mut Connection<MemStore>,
    row: &Row,
) -> Result<(), AllocError> {
    let found = held(alloc, base)?;
    assert_eq!(rt; found.as_str(), row.holds, "{}", row.title);
    Ok(())
}

fn assert_refused(
    rt: &impl Abort,
    alloc: Global,
    base: &mut Connection<MemStore>,
    content: &Data,
    row: &Row,
) -> Result<(), AllocError> {
    assert_eq!(rt; run(base, row.base), Ok(()), "{}", row.title);
    assert_held(rt, alloc, base, row)?;
    let before = objects(base);
    assert_eq!(rt;
        save(alloc, base, content, row.fresh),
        Err(row.error),
        "{}",
        row.title
    );
    assert_held(rt, alloc, base, row)?;
    assert_eq!(rt; objects(base), before, "{}", row.title);
    Ok(())
}

fn assert_row(rt: &impl Abort, alloc: Global, content: &Data, row: &Row) -> Result<(), AllocError> {
    let mut base = Connection::open_in_memory(alloc)?;
    assert_refused(rt, alloc, &mut base, content, row)
}

#[test]
fn a_refused_saving_leaves_the_base(rt: HostRuntime) -> Result<(), Fail> {
    let alloc = rt.alloc();
    let content = data_of(alloc, true, &NEW)?;
    for row in &REFUSED {
        assert_row(&rt, alloc, &content, row)?;
    }
    Ok(())
}

/// Saves under a limit on the steps of a statement, and tells whether that was enough.
fn assert_limited(
    rt: &impl Abort,
    alloc: Global,
    base: &mut Connection<MemStore>,
    content: &Data,
    limit: u64,
) -> Result<bool, AllocError> {
    base.set_step_limit(Some(limit));
    let answer = save(alloc, base, content, false);
    base.set_step_limit(None);
    let found = held(alloc, base)?;
    let wanted = if answer.is_ok() {
        "arcs;b.py c 3 4 1;b.py c 4 5 2;"
    } else {
        "arcs;a.py . 1 2 1;"
    };
    assert!(rt;
        answer.is_ok() || answer == Err(SqlError::Refused),
        "{limit}"
    );
    assert_eq!(rt; found.as_str(), wanted, "{limit}");
    Ok(answer.is_ok())
}

fn assert_limits(
    rt: &impl Abort,
    alloc: Global,
    base: &mut Connection<MemStore>,
    content: &Data,
) -> Result<(), AllocError> {
    assert_eq!(rt; run(base, &[START, OLD]), Ok(()));
    for limit in 0..1000 {
        if assert_limited(rt, alloc, base, content, limit)? {
            assert!(rt; limit > 0, "no statement was refused");
            return Ok(());
        }
    }
    assert!(rt; false, "each saving was refused");
    Ok(())
}

#[test]
fn a_limit_on_steps_refuses_a_saving(rt: HostRuntime) -> Result<(), Fail> {
    let alloc = rt.alloc();
    let content = data_of(alloc, true, &NEW)?;
    let mut base = Connection::open_in_memory(alloc)?;
    let done = assert_limits(&rt, alloc, &mut base, &content);
    drop(base);
    Ok(done?)
}
