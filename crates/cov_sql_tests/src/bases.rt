//! Bases in memory, what they hold as data files, and saving in them.

use crate::texts::shown;
use cov_data::Data;
use cov_sql::{Counted, SqlError, read_data, write_data};
use sqlite::{Alter, Connection, Error, MemStore};
use std::alloc::{AllocError, Global};

/// The tables of schema 7, with a file `a.py` and the empty context, both of number 1.
pub(crate) const START: &str = "CREATE TABLE coverage_schema (version integer);
CREATE TABLE meta (key text, value text, unique (key));
CREATE TABLE file (id integer primary key, path text, unique (path));
CREATE TABLE context (id integer primary key, context text, unique (context));
CREATE TABLE line_bits (file_id integer, context_id integer, numbits blob,
  foreign key (file_id) references file (id), foreign key (context_id) references context (id),
  unique (file_id, context_id));
CREATE TABLE arc (file_id integer, context_id integer, fromno integer, tono integer,
  foreign key (file_id) references file (id), foreign key (context_id) references context (id),
  unique (file_id, context_id, fromno, tono));
CREATE TABLE tracer (file_id integer primary key, tracer text,
  foreign key (file_id) references file (id));
INSERT INTO coverage_schema VALUES (7);
INSERT INTO file VALUES (1, 'a.py');
INSERT INTO context VALUES (1, '')";

/// The same without types and keys, and with a table of counts.
pub(crate) const LOOSE: &str = "CREATE TABLE coverage_schema (version);
CREATE TABLE meta (key, value);
CREATE TABLE file (id, path);
CREATE TABLE context (id, context);
CREATE TABLE line_bits (file_id, context_id, numbits);
CREATE TABLE arc (file_id, context_id, fromno, tono);
CREATE TABLE tracer (file_id, tracer);
CREATE TABLE hits (file_id, context_id, fromno, tono, count);
INSERT INTO coverage_schema VALUES (7);
INSERT INTO file VALUES (1, 'a.py');
INSERT INTO context VALUES (1, '')";

/// Runs texts of SQL up to the first that is refused.
pub(crate) fn run(base: &mut Connection<MemStore>, texts: &[&str]) -> Result<(), Error> {
    for text in texts {
        base.execute_batch(text)?;
    }
    Ok(())
}

/// What a base holds as a data file: its data, or why it holds none.
pub(crate) fn held<S: Alter>(
    alloc: Global,
    base: &mut Connection<S>,
) -> Result<String, AllocError> {
    match read_data(alloc, base, &mut Counted::new()) {
        Ok(data) => shown(alloc, &data),
        Err(error) => format!(in alloc; "{error:?}"),
    }
}

/// The same after texts of SQL.
fn held_after(
    alloc: Global,
    base: &mut Connection<MemStore>,
    texts: &[&str],
) -> Result<String, AllocError> {
    match run(base, texts) {
        Ok(()) => held(alloc, base),
        Err(error) => format!(in alloc; "refused: {error:?}"),
    }
}

/// What a new base holds after texts of SQL.
pub(crate) fn held_by(alloc: Global, texts: &[&str]) -> Result<String, AllocError> {
    let mut base = Connection::open_in_memory(alloc)?;
    held_after(alloc, &mut base, texts)
}

/// Saves in a base outside of any transaction.
pub(crate) fn save<S: Alter>(
    alloc: Global,
    base: &mut Connection<S>,
    content: &Data,
    fresh: bool,
) -> Result<(), SqlError> {
    if !base.is_autocommit() {
        return Err(SqlError::Refused);
    }
    write_data(alloc, base, &mut Counted::new(), content, fresh)
}

/// What a base holds after data were saved in it, or why they weren't.
pub(crate) fn held_saved<S: Alter>(
    alloc: Global,
    base: &mut Connection<S>,
    content: &Data,
    fresh: bool,
) -> Result<String, AllocError> {
    match save(alloc, base, content, fresh) {
        Ok(()) => held(alloc, base),
        Err(error) => format!(in alloc; "{error:?}"),
    }
}
