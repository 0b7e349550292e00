//! Statements that make, fill and empty the tables, and those that are refused.

use crate::bases::run;
use crate::reading::assert_tables;
use cov_sql::{Counted, StatementError, Statements};
use sqlite::{Connection, MemStore, Transaction};
use std::alloc::{AllocError, Global};
use std::process::Abort;
use std::test::Fail;

/// The tables, each after those that its rows refer to.
const TABLES: [&str; 8] = [
    "coverage_schema",
    "meta",
    "file",
    "context",
    "line_bits",
    "arc",
    "tracer",
    "hits",
];

/// Makes a table, or gives it a row, or takes its rows.
fn work_on(
    by: &mut Counted,
    work: &mut Transaction<'_, MemStore>,
    verb: &str,
    table: &str,
) -> Result<(), StatementError> {
    match verb {
        "make" => make(by, work, table),
        "insert" => insert(by, work, table),
        _ => delete(by, work, table),
    }
}

fn make(
    by: &mut Counted,
    work: &mut Transaction<'_, MemStore>,
    table: &str,
) -> Result<(), StatementError> {
    match table {
        "coverage_schema" => by.make_coverage_schema(work),
        "meta" => by.make_meta(work),
        "file" => by.make_file(work),
        "context" => by.make_context(work),
        "line_bits" => by.make_line_bits(work),
        "arc" => by.make_arc(work),
        "tracer" => by.make_tracer(work),
        _ => by.make_hits(work),
    }
}

fn insert(
    by: &mut Counted,
    work: &mut Transaction<'_, MemStore>,
    table: &str,
) -> Result<(), StatementError> {
    match table {
        "coverage_schema" => by.insert_coverage_schema(work, 7),
        "meta" => by.insert_meta(work, "has_arcs", "1"),
        "file" => by.insert_file(work, 1, "a é.py"),
        "context" => by.insert_context(work, 2, ""),
        "line_bits" => by.insert_line_bits(work, 1, 2, b"\x02\x00\x01"),
        "arc" => by.insert_arc(work, 1, 2, -1, 65_535),
        "tracer" => Ok(()),
        _ => by.insert_hits(work, 1, 2, -1, 65_535, 4_294_967_295),
    }
}

fn delete(
    by: &mut Counted,
    work: &mut Transaction<'_, MemStore>,
    table: &str,
) -> Result<(), StatementError> {
    match table {
        "coverage_schema" => Ok(()),
        "meta" => by.delete_meta(work),
        "file" => by.delete_file(work),
        "context" => by.delete_context(work),
        "line_bits" => by.delete_line_bits(work),
        "arc" => by.delete_arc(work),
        "tracer" => by.delete_tracer(work),
        _ => by.delete_hits(work),
    }
}

/// Runs a statement on each of these tables, in one transaction.
fn run_all(
    base: &mut Connection<MemStore>,
    verb: &str,
    tables: &[&str],
) -> Result<(), StatementError> {
    if !base.is_autocommit() {
        return Ok(());
    }
    let mut by = Counted::new();
    by.may_begin()?;
    let mut work = base.transaction();
    for table in tables {
        work_on(&mut by, &mut work, verb, table)?;
    }
    by.commit(work)
}

/// What each table holds when it is filled.
static FILLED: [(&str, &str); 8] = [
    ("coverage_schema", "7 |"),
    ("meta", "'has_arcs' '1' |"),
    ("file", "1 'a é.py' |"),
    ("context", "2 '' |"),
    ("line_bits", "1 2 [2, 0, 1] |"),
    ("arc", "1 2 -1 65535 |"),
    ("tracer", ""),
    ("hits", "1 2 -1 65535 4294967295 |"),
];

/// The tables that are emptied, each before those that its rows refer to.
const OLD_TABLES: [&str; 7] = [
    "arc",
    "hits",
    "line_bits",
    "tracer",
    "file",
    "context",
    "meta",
];

static EMPTIED: [(&str, &str); 8] = [
    ("coverage_schema", "7 |"),
    ("meta", ""),
    ("file", ""),
    ("context", ""),
    ("line_bits", ""),
    ("arc", ""),
    ("tracer", ""),
    ("hits", ""),
];

fn assert_made_filled_and_emptied(
    rt: &impl Abort,
    alloc: Global,
    base: &mut Connection<MemStore>,
) -> Result<(), AllocError> {
    assert_eq!(rt; run(base, &["CREATE TABLE further (path text)"]), Ok(()));
    assert_eq!(rt; run_all(base, "make", &TABLES), Ok(()));
    assert_eq!(rt; run_all(base, "insert", &TABLES), Ok(()));
    assert_tables(rt, alloc, base, "Filled", &FILLED)?;
    assert_eq!(rt; run_all(base, "delete", &OLD_TABLES), Ok(()));
    assert_tables(rt, alloc, base, "Emptied", &EMPTIED)
}

#[test]
fn tables_are_made_filled_and_emptied(rt: HostRuntime) -> Result<(), Fail> {
    let alloc = rt.alloc();
    let mut base = Connection::open_in_memory(alloc)?;
    let done = assert_made_filled_and_emptied(&rt, alloc, &mut base);
    drop(base);
    Ok(done?)
}

/// A title, a text that makes a base, a statement on a table, and its answer.
static REFUSED: [(&str, &str, &str, &str, StatementError); 5] = [
    (
        "A table that is there",
        "CREATE TABLE META (x)",
        "make",
        "meta",
        StatementError::Refused,
    ),
    ("No table", "", "delete", "hits", StatementError::Missing),
    (
        "No column",
        "CREATE TABLE file (id integer primary key)",
        "insert",
        "file",
        StatementError::Missing,
    ),
    (
        "No file of this number",
        "CREATE TABLE file (id integer primary key);
         CREATE TABLE arc (file_id integer references file (id), context_id, fromno, tono)",
        "insert",
        "arc",
        StatementError::Refused,
    ),
    (
        "A file that is referred to",
        "CREATE TABLE file (id integer primary key); INSERT INTO file VALUES (1);
         CREATE TABLE further (id integer references file (id)); INSERT INTO further VALUES (1)",
        "delete",
        "file",
        StatementError::Refused,
    ),
];

fn assert_refused(
    rt: &impl Abort,
    alloc: Global,
    (title, text, verb, table, error): (&str, &str, &str, &str, StatementError),
) -> Result<(), AllocError> {
    let mut base = Connection::open_in_memory(alloc)?;
    assert_eq!(rt; run(&mut base, &[text]), Ok(()), "{title}");
    assert_eq!(rt; run_all(&mut base, verb, &[table]), Err(error), "{title}");
    Ok(())
}

#[test]
fn a_refused_statement_says_why(rt: HostRuntime) -> Result<(), Fail> {
    let alloc = rt.alloc();
    for row in &REFUSED {
        assert_refused(&rt, alloc, *row)?;
    }
    Ok(())
}
