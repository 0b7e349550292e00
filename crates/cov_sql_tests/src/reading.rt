//! The rows of each table, as its statement reads them.

use crate::bases::run;
use cov_sql::{Cell, Counted, RowCells, StatementError, Statements};
use sqlite::{Connection, MemStore};
use std::alloc::{AllocError, Global};
use std::process::Abort;
use std::test::Fail;

/// A data file with rows of every kind, a further table and a further column.
const FILE: &str = "CREATE TABLE coverage_schema (version integer);
CREATE TABLE meta (key text, value text, more text, unique (key));
CREATE TABLE file (id integer primary key, path text, unique (path));
CREATE TABLE context (id integer primary key, context text, unique (context));
CREATE TABLE line_bits (file_id integer, context_id integer, numbits blob,
  foreign key (file_id) references file (id), foreign key (context_id) references context (id),
  unique (file_id, context_id));
CREATE TABLE arc (file_id integer, context_id integer, fromno integer, tono integer,
  foreign key (file_id) references file (id), foreign key (context_id) references context (id),
  unique (file_id, context_id, fromno, tono));
CREATE TABLE tracer (file_id integer primary key, tracer text,
  foreign key (file_id) references file (id));
CREATE TABLE hits (file_id integer, context_id integer, fromno integer, tono integer,
  count integer, unique (file_id, context_id, fromno, tono));
CREATE TABLE further (path text);
INSERT INTO coverage_schema VALUES (7);
INSERT INTO meta VALUES ('has_arcs', '1', 'x');
INSERT INTO meta VALUES ('version', NULL, 'y');
INSERT INTO file VALUES (1, 'a.py');
INSERT INTO file VALUES (2, x'e9');
INSERT INTO context VALUES (1, 'é');
INSERT INTO line_bits VALUES (1, 1, x'0203');
INSERT INTO arc VALUES (1, 1, -1, 2);
INSERT INTO arc VALUES (2, 1, 1.5, 'x');
INSERT INTO tracer VALUES (1, 'none');
INSERT INTO hits VALUES (1, 1, -1, 2, 4294967295)";

fn read(
    by: &mut Counted,
    alloc: Global,
    base: &mut Connection<MemStore>,
    table: &str,
) -> Result<Vec<RowCells>, StatementError> {
    match table {
        "coverage_schema" => by.read_coverage_schema(alloc, base),
        "meta" => by.read_meta(alloc, base),
        "file" => by.read_file(alloc, base),
        "context" => by.read_context(alloc, base),
        "line_bits" => by.read_line_bits(alloc, base),
        "arc" => by.read_arc(alloc, base),
        "tracer" => by.read_tracer(alloc, base),
        _ => by.read_hits(alloc, base),
    }
}

/// Numbers, a word each.
fn push_numbers(alloc: Global, text: &mut String, numbers: &[i64]) -> Result<(), AllocError> {
    for number in numbers {
        text.push_str(format!(in alloc; "{number} ")?.as_str())?;
    }
    Ok(())
}

/// Cells, a word each.
fn push_cells(alloc: Global, text: &mut String, row: &[Cell]) -> Result<(), AllocError> {
    for cell in row {
        let word = match cell {
            Cell::Int(number) => format!(in alloc; "{number} ")?,
            Cell::Text(text) => format!(in alloc; "'{text}' ")?,
            Cell::Blob(bytes) => format!(in alloc; "{bytes:?} ")?,
            Cell::Other => String::from_str(alloc, "? ")?,
        };
        text.push_str(word.as_str())?;
    }
    Ok(())
}

/// The cells of a row, and a bar.
fn push_row(alloc: Global, text: &mut String, row: &RowCells) -> Result<(), AllocError> {
    match row {
        RowCells::Four(a, b, c, d) => push_numbers(alloc, text, &[*a, *b, *c, *d])?,
        RowCells::Five(a, b, c, d, e) => push_numbers(alloc, text, &[*a, *b, *c, *d, *e])?,
        RowCells::Any(cells) => push_cells(alloc, text, cells)?,
    }
    text.push('|')
}

/// All rows, with a bar after each.
fn rows_text(alloc: Global, rows: &[RowCells]) -> Result<String, AllocError> {
    let mut text = String::new(alloc);
    for row in rows {
        push_row(alloc, &mut text, row)?;
    }
    Ok(text)
}

fn assert_table(
    rt: &impl Abort,
    alloc: Global,
    base: &mut Connection<MemStore>,
    title: &str,
    (table, expected): (&str, Result<&str, StatementError>),
) -> Result<(), AllocError> {
    match read(&mut Counted::new(), alloc, base, table) {
        Ok(rows) => {
            let text = rows_text(alloc, &rows)?;
            assert!(rt;
                expected.is_ok_and(|wanted| wanted == text.as_str()),
                "{title}, {table}: {text}"
            );
        }
        Err(error) => assert_eq!(rt; expected.err(), Some(error), "{title}, {table}"),
    }
    Ok(())
}

/// The base has these rows, each table's as a text.
pub(crate) fn assert_tables(
    rt: &impl Abort,
    alloc: Global,
    base: &mut Connection<MemStore>,
    title: &str,
    tables: &[(&str, &str)],
) -> Result<(), AllocError> {
    for (table, expected) in tables {
        assert_table(rt, alloc, base, title, (*table, Ok(*expected)))?;
    }
    Ok(())
}

static OF_FILE: [(&str, &str); 8] = [
    ("coverage_schema", "7 |"),
    ("meta", "'has_arcs' '1' |'version' ? |"),
    ("file", "1 'a.py' |2 [233] |"),
    ("context", "1 'é' |"),
    ("line_bits", "1 1 [2, 3] |"),
    ("arc", "1 1 -1 2 |2 1 ? 'x' |"),
    ("tracer", "1 'none' |"),
    ("hits", "1 1 -1 2 4294967295 |"),
];

#[test]
fn each_table_is_read(rt: HostRuntime) -> Result<(), Fail> {
    let alloc = rt.alloc();
    let mut base = Connection::open_in_memory(alloc)?;
    assert_eq!(rt; run(&mut base, &[FILE]), Ok(()));
    let done = assert_tables(&rt, alloc, &mut base, "Each kind", &OF_FILE);
    drop(base);
    Ok(done?)
}

/// A title, a text that makes a base, a table, and what is read of it.
static TOLD: [(&str, &str, &str, Result<&str, StatementError>); 4] = [
    (
        "No table",
        "CREATE TABLE meta (key text)",
        "arc",
        Err(StatementError::Missing),
    ),
    (
        "Missing column",
        "CREATE TABLE arc (file_id integer, context_id integer, fromno integer)",
        "arc",
        Err(StatementError::Missing),
    ),
    (
        "Other case and order",
        "CREATE TABLE FILE (Path text, ID integer primary key); INSERT INTO file VALUES ('p', 3)",
        "file",
        Ok("3 'p' |"),
    ),
    (
        "A view in place of a table",
        "CREATE VIEW context AS SELECT 1 AS id, 'v' AS context",
        "context",
        Err(StatementError::Missing),
    ),
];

fn assert_read(
    rt: &impl Abort,
    alloc: Global,
    (title, text, table, expected): (&str, &str, &str, Result<&str, StatementError>),
) -> Result<(), AllocError> {
    let mut base = Connection::open_in_memory(alloc)?;
    assert_eq!(rt; run(&mut base, &[text]), Ok(()), "{title}");
    assert_table(rt, alloc, &mut base, title, (table, expected))
}

#[test]
fn what_is_missing_is_told(rt: HostRuntime) -> Result<(), Fail> {
    let alloc = rt.alloc();
    for row in &TOLD {
        assert_read(&rt, alloc, *row)?;
    }
    Ok(())
}
