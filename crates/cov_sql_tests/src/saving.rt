//! Data that are saved and read again, and what the tables hold then.

use crate::bases::{LOOSE, START, held_saved, run};
use crate::reading::assert_tables;
use crate::texts::{Given, data_of};
use sqlite::{Connection, Error, MemStore};
use std::alloc::{AllocError, Global};
use std::process::Abort;
use std::test::Fail;

/// A title, whether the data are of arcs, their rows, and what is read of them again.
static SAVED: [(&str, bool, &[Given], &str); 10] = [
    (
        "Arcs",
        true,
        &[
            ("a.py", "", 2, -1, 1),
            ("a.py", "", -1, 1, 1),
            ("a.py", "", 1, 2, 1),
        ],
        "arcs;a.py . -1 1 1;a.py . 1 2 1;a.py . 2 -1 1;",
    ),
    (
        "Arcs with contexts",
        true,
        &[
            ("b.py", "c", 1, 2, 1),
            ("a.py", "x y", 1, 2, 1),
            ("a.py", "", 3, 4, 1),
            ("a.py", "é", 1, 2, 1),
        ],
        "arcs;a.py . 3 4 1;a.py x y 1 2 1;a.py é 1 2 1;b.py c 1 2 1;",
    ),
    (
        "Counts",
        true,
        &[
            ("a.py", "", 1, 2, 4_294_967_295),
            ("a.py", "", 2, 3, 2),
            ("a.py", "c", 1, 2, 7),
            ("a.py", "c", 1, 2, 8),
        ],
        "arcs;a.py . 1 2 4294967295;a.py . 2 3 2;a.py c 1 2 15;",
    ),
    (
        "The greatest numbers",
        true,
        &[("a.py", "", 65_535, -65_535, 1)],
        "arcs;a.py . 65535 -65535 1;",
    ),
    (
        "Names",
        true,
        &[
            ("日本.py", "", 1, 2, 1),
            ("it's.py", "-- x", 1, 2, 1),
            ("é ü/ß.py", "", 1, 2, 1),
            ("a b.py", "x 'y' \"z\"", 1, 2, 1),
            (" ", "", 1, 2, 1),
        ],
        "arcs;  . 1 2 1;a b.py x 'y' \"z\" 1 2 1;it's.py -- x 1 2 1;é ü/ß.py . 1 2 1;日本.py . 1 2 1;",
    ),
    (
        "Paths without a row",
        true,
        &[
            ("z.py", "", 0, 0, 0),
            ("", "", 0, 0, 0),
            ("a.py", "", 1, 2, 1),
        ],
        "arcs;;z.py;a.py . 1 2 1;",
    ),
    ("No row of arcs", true, &[], "arcs;"),
    (
        "Lines",
        false,
        &[
            ("a.py", "", 9, 9, 1),
            ("a.py", "", 8, 8, 1),
            ("a.py", "", 1, 1, 1),
            ("b.py", "", 65_535, 65_535, 1),
        ],
        "lines;a.py . 1 1 1;a.py . 8 8 1;a.py . 9 9 1;b.py . 65535 65535 1;",
    ),
    (
        "Lines with contexts and counts",
        false,
        &[
            ("a.py", "c", 3, 3, 5),
            ("a.py", "", 3, 3, 4),
            ("b.py", "c", 1, 1, 4_294_967_295),
            ("c.py", "", 0, 0, 0),
        ],
        "lines;c.py;a.py . 3 3 4;a.py c 3 3 5;b.py c 1 1 4294967295;",
    ),
    ("No row of lines", false, &[], "lines;"),
];

fn held_by_saving(alloc: Global, arcs: bool, rows: &[Given]) -> Result<String, AllocError> {
    let data = data_of(alloc, arcs, rows)?;
    let mut base = Connection::open_in_memory(alloc)?;
    held_saved(alloc, &mut base, &data, true)
}

#[test]
fn saved_data_are_read_again(rt: HostRuntime) -> Result<(), Fail> {
    let alloc = rt.alloc();
    for (title, arcs, rows, wanted) in &SAVED {
        let found = held_by_saving(alloc, *arcs, *rows)?;
        assert_eq!(rt; found.as_str(), *wanted, "{title}");
    }
    Ok(())
}

/// Saves these rows, which must then be read again as the text.
fn assert_saved(
    rt: &impl Abort,
    alloc: Global,
    base: &mut Connection<MemStore>,
    fresh: bool,
    (title, arcs, rows, wanted): (&str, bool, &[Given], &str),
) -> Result<(), AllocError> {
    let data = data_of(alloc, arcs, rows)?;
    let found = held_saved(alloc, base, &data, fresh)?;
    assert_eq!(rt; found.as_str(), wanted, "{title}");
    Ok(())
}

/// Saves data after data in one base, of which only the first are fresh.
fn assert_each_saved(
    rt: &impl Abort,
    alloc: Global,
    base: &mut Connection<MemStore>,
) -> Result<(), AllocError> {
    let mut fresh = true;
    for row in &SAVED {
        assert_saved(rt, alloc, base, fresh, *row)?;
        fresh = false;
    }
    Ok(())
}

#[test]
fn data_are_saved_over_others(rt: HostRuntime) -> Result<(), Fail> {
    let alloc = rt.alloc();
    let mut base = Connection::open_in_memory(alloc)?;
    let done = assert_each_saved(&rt, alloc, &mut base);
    drop(base);
    Ok(done?)
}

const ARCS: (&str, bool, &[Given], &str) = (
    "Arcs",
    true,
    &[
        ("b é.py", "c", 1, 2, 3),
        ("a.py", "c", 1, -1, 2),
        ("a.py", "b", -1, 1, 1),
        ("z.py", "", 0, 0, 0),
    ],
    "arcs;z.py;a.py b -1 1 1;a.py c 1 -1 2;b é.py c 1 2 3;",
);

/// What each table holds after these arcs were saved.
static OF_ARCS: [(&str, &str); 8] = [
    ("coverage_schema", "7 |"),
    ("meta", "'has_arcs' '1' |"),
    ("file", "1 'a.py' |2 'b é.py' |3 'z.py' |"),
    ("context", "1 'b' |2 'c' |"),
    ("line_bits", ""),
    ("arc", "1 1 -1 1 |1 2 1 -1 |2 2 1 2 |"),
    ("tracer", ""),
    ("hits", "1 1 -1 1 1 |1 2 1 -1 2 |2 2 1 2 3 |"),
];

const LINES: (&str, bool, &[Given], &str) = (
    "Lines",
    false,
    &[
        ("b.py", "", 2, 2, 6),
        ("a.py", "d", 2, 2, 1),
        ("a.py", "", 1, 1, 1),
        ("a.py", "", 8, 8, 1),
        ("a.py", "", 9, 9, 5),
    ],
    "lines;a.py . 1 1 1;a.py . 8 8 1;a.py . 9 9 5;a.py d 2 2 1;b.py . 2 2 6;",
);

static OF_LINES: [(&str, &str); 8] = [
    ("coverage_schema", "7 |"),
    ("meta", "'has_arcs' '0' |"),
    ("file", "1 'a.py' |2 'b.py' |"),
    ("context", "1 '' |2 'd' |"),
    ("line_bits", "1 1 [2, 3] |1 2 [4] |2 1 [4] |"),
    ("arc", ""),
    ("tracer", ""),
    (
        "hits",
        "1 1 1 1 1 |1 1 8 8 1 |1 1 9 9 5 |1 2 2 2 1 |2 1 2 2 6 |",
    ),
];

/// Saves arcs, lines and arcs again.
fn assert_saved_in_turn(
    rt: &impl Abort,
    alloc: Global,
    base: &mut Connection<MemStore>,
) -> Result<(), AllocError> {
    assert_saved(rt, alloc, base, true, ARCS)?;
    assert_tables(rt, alloc, base, "Arcs", &OF_ARCS)?;
    assert_saved(rt, alloc, base, false, LINES)?;
    assert_tables(rt, alloc, base, "Lines over arcs", &OF_LINES)?;
    assert_saved(rt, alloc, base, false, ARCS)?;
    assert_tables(rt, alloc, base, "Arcs over lines", &OF_ARCS)
}

#[test]
fn tables_hold_what_was_saved(rt: HostRuntime) -> Result<(), Fail> {
    let alloc = rt.alloc();
    let mut base = Connection::open_in_memory(alloc)?;
    let done = assert_saved_in_turn(&rt, alloc, &mut base);
    drop(base);
    Ok(done?)
}

/// Tables, an index and a view that no data file has.
const OTHERS: &str = "CREATE TABLE notes (x); INSERT INTO notes VALUES ('kept');
CREATE INDEX notes_by_x ON notes (x);
CREATE VIEW seen AS SELECT x FROM notes;
CREATE TABLE counted (id integer primary key autoincrement, x);
INSERT INTO counted (x) VALUES (1)";

#[test]
fn data_are_saved_beside_others(rt: HostRuntime) -> Result<(), Fail> {
    let alloc = rt.alloc();
    let mut base = Connection::open_in_memory(alloc)?;
    assert_eq!(rt; run(&mut base, &[OTHERS]), Ok(()));
    let done = assert_saved_in_turn(&rt, alloc, &mut base);
    drop(base);
    Ok(done?)
}

/// A title, and texts that make a base over which data are saved.
static FOREIGN: [(&str, &[&str]); 5] = [
    ("No counts", &[START]),
    (
        "Further keys and rows",
        &[
            START,
            "INSERT INTO meta VALUES ('has_arcs', '0'), ('version', 'x');
             INSERT INTO file VALUES (5, 'old.py'); INSERT INTO context VALUES (9, 'old');
             INSERT INTO tracer VALUES (1, 'x'); INSERT INTO arc VALUES (5, 9, 1, 2);
             INSERT INTO line_bits VALUES (5, 9, x'02')",
        ],
    ),
    (
        "A row that is none",
        &[
            START,
            "INSERT INTO meta VALUES ('has_arcs', '1'); INSERT INTO arc VALUES (1, 1, 70000, 'x')",
        ],
    ),
    (
        "Further columns, in another order",
        &[
            START,
            "DROP TABLE arc;
             CREATE TABLE arc (more text default 'm', TONO integer, fromno integer, context_id integer,
               file_id integer)",
        ],
    ),
    (
        "No keys",
        &[
            LOOSE,
            "INSERT INTO hits VALUES (1, 1, 1, 2, 3), (1, 1, 1, 2, 3); INSERT INTO arc VALUES (9, 9, 'x', 1)",
        ],
    ),
];

fn further_rows(base: &mut Connection<MemStore>) -> Result<i64, Error> {
    base.query_row("SELECT count(*) FROM further WHERE path = 'kept'", &[])?
        .get(0)
}

/// Saves over a base that these texts make, with a further table.
fn assert_saved_over(
    rt: &impl Abort,
    alloc: Global,
    base: &mut Connection<MemStore>,
    title: &str,
    texts: &[&str],
) -> Result<(), AllocError> {
    let further = "CREATE TABLE further (path text); INSERT INTO further VALUES ('kept')";
    assert_eq!(rt; run(base, &[further]), Ok(()), "{title}");
    assert_eq!(rt; run(base, texts), Ok(()), "{title}");
    assert_saved(rt, alloc, base, false, ARCS)?;
    assert_tables(rt, alloc, base, title, &OF_ARCS)?;
    assert_eq!(rt; further_rows(base), Ok(1), "{title}");
    Ok(())
}

fn assert_foreign(
    rt: &impl Abort,
    alloc: Global,
    title: &str,
    texts: &[&str],
) -> Result<(), AllocError> {
    let mut base = Connection::open_in_memory(alloc)?;
    assert_saved_over(rt, alloc, &mut base, title, texts)
}

#[test]
fn data_are_saved_over_foreign_ones(rt: HostRuntime) -> Result<(), Fail> {
    let alloc = rt.alloc();
    for (title, texts) in &FOREIGN {
        assert_foreign(&rt, alloc, *title, *texts)?;
    }
    Ok(())
}
