//! Reading one table: whether it is there, and its rows.
ghost use Rattle.std.specs.Prelude.{◌≡◌, ◌++◌, ◌∷◌, false, [], Some, IfOk, IfErr, OnOk};
ghost use Rattle.sqlite.specs.Held.{state};
ghost use Rattle.sqlite.specs.State.{HasCleanDisk, IsUnchanged, Survives, CommitsShowing};
ghost use Rattle.cov_sql.specs.Calls.{Counts, IsRefused, LeavesNoMore};
ghost use Rattle.sqlite_resolve.specs.declared.error.CompileError.{CompileError};
ghost use Rattle.sqlite.specs.declared.error.Error.TheVariants.{SqlInputError};
ghost use Rattle.cov_sql.specs.Told.{EndsAs, IsAbsence};
ghost use Rattle.cov_tables.specs.declared.cells.RowCells.{RowCells};
ghost use Rattle.cov_sql.specs.Cells.{AreCells};
ghost use Rattle.cov_sql.specs.Shown.{NeverReturns, ShowsCells, StopsAs, ShowsTable, AsksFor, CommitsAsking};

use crate::counted::Counted;
use crate::statements::StatementError;
use crate::values::cells_of;
use cov_tables::RowCells;
use sqlite::{Alter, Connection, Error, Row};
use std::alloc::{AllocError, Global};

fn push_row(alloc: Global, row: &Row, rows: &mut Vec<RowCells>) -> Result<(), AllocError>
    ensures { OnOk result ((cells : RowCells) × AreCells row.now cells
        × (rows.new.items ≡ rows.old.items ++ cells ∷ [])) }
{
    let cells = cells_of(alloc, row)?;
    rows.push(cells)?;
    Ok(())
}

/// The rows that a query shows, which are read one at a time, so that no more than their cells are
/// kept. An error is the database's, or else memory is missing.
fn shown_rows<S: Alter>(
    alloc: Global,
    base: &mut Connection<S>,
    sql: &str,
) -> Result<Vec<RowCells>, Option<Error>>
    ensures shown { HasCleanDisk (state S.Store base.new)
        → NeverReturns sql.now (state S.Store base.old)
        → IfOk result (ShowsCells sql.now (state S.Store base.old) (state S.Store base.new)) }
    ensures stops { HasCleanDisk (state S.Store base.new)
        → NeverReturns sql.now (state S.Store base.old)
        → IfErr result (StopsAs sql.now (state S.Store base.old) (state S.Store base.new)) }
    ensures survives { Survives (state S.Store base.old) (state S.Store base.new)
        (CommitsShowing sql.now [] (state S.Store base.old)) }
    ensures mode { base.old.in_transaction ≡ false → base.new.in_transaction ≡ false }
{
    let mut all = Vec::new(alloc);
    let mut rows = match base.query(sql, &[]) {
        Ok(rows) => rows,
        Err(error) => return Err(Some(error)),
    };
    'reading: for _ in 0..u64::MAX {
        match rows.advance() {
            Ok(()) => {}
            Err(error) => return Err(Some(error)),
        }
        match rows.get() {
            None => return Ok(all),
            Some(row) => match push_row(alloc, row, &mut all) {
                Ok(()) => {}
                Err(_) => return Err(None),
            },
        }
    }
    Err(None)
}

impl Counted {
    /// That a table isn't there, or why the base doesn't tell. The text is compiled and not asked.
    fn find_missing<S: Alter>(&mut self, base: &mut Connection<S>, sql: &str) -> StatementError
        ensures unfound { HasCleanDisk (state S.Store base.new) → result ≡ StatementError.Missing
            → IsUnchanged (state S.Store base.old) (state S.Store base.new) }
        ensures ends { HasCleanDisk (state S.Store base.new)
            → EndsAs (state S.Store base.old) (state S.Store base.new) }
        ensures survives { LeavesNoMore S.Store base.old base.new }
        ensures mode { base.old.in_transaction ≡ false → base.new.in_transaction ≡ false }
        ensures counts { Counts self.old.refusals self.new.refusals
            (result ≡ StatementError.Refused) }
    {
        let Err(error) = base.prepare(sql) else {
            return StatementError::Missing;
        };
        match error {
            Error::SqlInputError(_) => StatementError::Missing,
            other => self.count_other(other),
        }
    }

    /// What it means that rows ended early, which counts unless a table, a column or memory is
    /// missing.
    fn stopped(&mut self, why: Option<Error>) -> StatementError
        ensures counts { Counts self.old.refusals self.new.refusals
            (result ≡ StatementError.Refused) }
        ensures missing { result ≡ StatementError.Missing
            → (e : CompileError) × IsAbsence e × (why ≡ Some (SqlInputError e)) }
    {
        match why {
            Some(error) => self.count(error),
            None => StatementError::NoMemory,
        }
    }

    /// The rows that a query shows.
    fn query_rows<S: Alter>(
        &mut self,
        alloc: Global,
        base: &mut Connection<S>,
        sql: &str,
    ) -> Result<Vec<RowCells>, StatementError>
        ensures shows { HasCleanDisk (state S.Store base.new)
            → NeverReturns sql.now (state S.Store base.old)
            → ShowsTable sql.now (state S.Store base.old) (state S.Store base.new) result }
        ensures survives { Survives (state S.Store base.old) (state S.Store base.new)
            (CommitsShowing sql.now [] (state S.Store base.old)) }
        ensures mode { base.old.in_transaction ≡ false → base.new.in_transaction ≡ false }
        ensures counts { Counts self.old.refusals self.new.refusals (IsRefused result) }
    {
        match shown_rows(alloc, base, sql) {
            Ok(rows) => Ok(rows),
            Err(why) => Err(self.stopped(why)),
        }
    }

    /// The rows of a table that a query shows. A view of its name is no table.
    pub(crate) fn read_rows<S: Alter>(
        &mut self,
        alloc: Global,
        base: &mut Connection<S>,
        table: &str,
        sql: &str,
    ) -> Result<Vec<RowCells>, StatementError>
        ensures told { HasCleanDisk (state S.Store base.new)
            → AsksFor table.now sql.now (state S.Store base.old) (state S.Store base.new) result }
        ensures survives { Survives (state S.Store base.old) (state S.Store base.new)
            (CommitsAsking table.now sql.now (state S.Store base.old)) }
        ensures mode { base.old.in_transaction ≡ false → base.new.in_transaction ≡ false }
        ensures counts { Counts self.old.refusals self.new.refusals (IsRefused result) }
    {
        if base.schema().table_named(table.as_bytes()).is_none() {
            return Err(self.find_missing(base, sql));
        }
        self.query_rows(alloc, base, sql)
    }
}
