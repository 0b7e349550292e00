//! The statements over the database itself.
ghost use Rattle.std.specs.Prelude.{◌≡◌, ◌≤◌, false, IsTrue, OnOk, OnErr, IsErrOf};
ghost use Rattle.cov_outside.specs.Counts.{greatest, Rose};
ghost use Rattle.sqlite.specs.Held.{state};
ghost use Rattle.sqlite.specs.State.{HasCleanDisk, Survives, KeepsCommit, Commits, IsRolledBack};
ghost use Rattle.sqlite_resolve.specs.declared.error.CompileError.{CompileError};
ghost use Rattle.sqlite.specs.declared.error.Error.TheVariants.{SqlInputError};
ghost use Rattle.sqlite.specs.Values.{bound};
ghost use Rattle.cov_sql.specs.Calls.{Counts, IsRefused, LeavesNoMore};
ghost use Rattle.cov_sql.specs.Told.{IsAbsence};
ghost use Rattle.cov_sql.specs.Written.{Ran, WasAbsent};

use crate::statements::{StatementError, Statements};
use cov_tables::RowCells;
use sqlite::{Alter, Connection, Error, ErrorCode, Transaction};
use sqlite_resolve::CompileError;
use sqlite_value::value::ValueRef;
use std::alloc::Global;

/// Statements over the database, which counts what it refuses.
#[derive(Debug, Drop)]
pub struct Counted {
    refusals: u64,
    ghost bounded: { refusals ≤ greatest },
}

impl Counted {
    pub fn new() -> Counted
        ensures { ⟦<Counted as Statements>⟧.refusals result ≡ 0 }
    {
        Counted { refusals: 0 }
    }

    /// What an error means, which counts unless a table, a column or memory is missing.
    pub(crate) fn count(&mut self, error: Error) -> StatementError
        ensures counts { Counts self.old.refusals self.new.refusals
            (result ≡ StatementError.Refused) }
        ensures missing { result ≡ StatementError.Missing
            → (e : CompileError) × IsAbsence e × (error ≡ SqlInputError e) }
    {
        match error {
            Error::SqliteFailure(ErrorCode::OutOfMemory) => StatementError::NoMemory,
            Error::SqlInputError(CompileError::NoSuchTable | CompileError::NoSuchColumn) => {
                StatementError::Missing
            }
            _ => {
                self.refuse();
                StatementError::Refused
            }
        }
    }

    /// Counts a refusal.
    pub(crate) fn refuse(&mut self)
        ensures { Rose self.old.refusals self.new.refusals }
    {
        self.refusals = self.refusals.saturating_add(1);
    }

    /// What an error means that names no table, which counts unless memory is missing.
    pub(crate) fn count_other(&mut self, error: Error) -> StatementError
        ensures counts { Counts self.old.refusals self.new.refusals
            (result ≡ StatementError.Refused) }
        ensures not_missing { result ≡ StatementError.Missing → ⊥ }
    {
        match error {
            Error::SqliteFailure(ErrorCode::OutOfMemory) => StatementError::NoMemory,
            _ => {
                self.refuse();
                StatementError::Refused
            }
        }
    }

    /// Runs a text in a transaction.
    fn run<S: Alter>(
        &mut self,
        work: &mut Transaction<'_, S>,
        sql: &str,
        params: &[ValueRef<'_>],
    ) -> Result<(), StatementError>
        ensures ran { HasCleanDisk (state S.Store work.new.conn.now)
            → IsTrue (state S.Store work.old.conn.now).in_transaction
            → OnOk result (Ran sql.now (bound params.now) (state S.Store work.old.conn.now)
            (state S.Store work.new.conn.now)) }
        ensures missing { HasCleanDisk (state S.Store work.new.conn.now)
            → IsTrue (state S.Store work.old.conn.now).in_transaction
            → IsErrOf result StatementError.Missing
            → WasAbsent sql.now (bound params.now) (state S.Store work.old.conn.now)
            (state S.Store work.new.conn.now) }
        ensures kept { HasCleanDisk (state S.Store work.new.conn.now)
            → IsTrue (state S.Store work.old.conn.now).in_transaction
            → KeepsCommit (state S.Store work.old.conn.now) (state S.Store work.new.conn.now) }
        ensures survives { LeavesNoMore S.Store work.old.conn.now work.new.conn.now }
        ensures same_reference { work.new.conn.ghost_name ≡ work.old.conn.ghost_name }
        ensures counts { Counts self.old.refusals self.new.refusals (IsRefused result) }
    {
        match work.execute(sql, params) {
            Ok(_) => Ok(()),
            Err(error) => Err(self.count(error)),
        }
    }
}

impl Statements for Counted {
    ghost refusals = { λ counted. counted.refusals };

    ghost tells = { λ _. Unit {0} };

    fn read_coverage_schema<S: Alter>(
        &mut self,
        alloc: Global,
        base: &mut Connection<S>,
    ) -> Result<Vec<RowCells>, StatementError> {
        self.read_rows(
            alloc,
            base,
            "coverage_schema",
            "SELECT version FROM coverage_schema",
        )
    }

    fn read_meta<S: Alter>(
        &mut self,
        alloc: Global,
        base: &mut Connection<S>,
    ) -> Result<Vec<RowCells>, StatementError> {
        self.read_rows(alloc, base, "meta", "SELECT key, value FROM meta")
    }

    fn read_file<S: Alter>(
        &mut self,
        alloc: Global,
        base: &mut Connection<S>,
    ) -> Result<Vec<RowCells>, StatementError> {
        self.read_rows(alloc, base, "file", "SELECT id, path FROM file")
    }

    fn read_context<S: Alter>(
        &mut self,
        alloc: Global,
        base: &mut Connection<S>,
    ) -> Result<Vec<RowCells>, StatementError> {
        self.read_rows(alloc, base, "context", "SELECT id, context FROM context")
    }

    fn read_line_bits<S: Alter>(
        &mut self,
        alloc: Global,
        base: &mut Connection<S>,
    ) -> Result<Vec<RowCells>, StatementError> {
        self.read_rows(
            alloc,
            base,
            "line_bits",
            "SELECT file_id, context_id, numbits FROM line_bits",
        )
    }

    fn read_arc<S: Alter>(
        &mut self,
        alloc: Global,
        base: &mut Connection<S>,
    ) -> Result<Vec<RowCells>, StatementError> {
        self.read_rows(
            alloc,
            base,
            "arc",
            "SELECT file_id, context_id, fromno, tono FROM arc",
        )
    }

    fn read_tracer<S: Alter>(
        &mut self,
        alloc: Global,
        base: &mut Connection<S>,
    ) -> Result<Vec<RowCells>, StatementError> {
        self.read_rows(alloc, base, "tracer", "SELECT file_id, tracer FROM tracer")
    }

    fn read_hits<S: Alter>(
        &mut self,
        alloc: Global,
        base: &mut Connection<S>,
    ) -> Result<Vec<RowCells>, StatementError> {
        self.read_rows(
            alloc,
            base,
            "hits",
            "SELECT file_id, context_id, fromno, tono, count FROM hits",
        )
    }

    fn may_begin(&mut self) -> Result<(), StatementError> {
        Ok(())
    }

    fn make_coverage_schema<S: Alter>(
        &mut self,
        work: &mut Transaction<'_, S>,
    ) -> Result<(), StatementError> {
        self.run(work, "CREATE TABLE coverage_schema (version integer)", &[])
    }

    fn make_meta<S: Alter>(&mut self, work: &mut Transaction<'_, S>) -> Result<(), StatementError> {
        self.run(
            work,
            "CREATE TABLE meta (key text, value text, unique (key))",
            &[],
        )
    }

    fn make_file<S: Alter>(&mut self, work: &mut Transaction<'_, S>) -> Result<(), StatementError> {
        self.run(
            work,
            "CREATE TABLE file (id integer primary key, path text, unique (path))",
            &[],
        )
    }

    fn make_context<S: Alter>(
        &mut self,
        work: &mut Transaction<'_, S>,
    ) -> Result<(), StatementError> {
        self.run(
            work,
            "CREATE TABLE context (id integer primary key, context text, unique (context))",
            &[],
        )
    }

    fn make_line_bits<S: Alter>(
        &mut self,
        work: &mut Transaction<'_, S>,
    ) -> Result<(), StatementError> {
        self.run(
            work,
            "CREATE TABLE line_bits (file_id integer, context_id integer, numbits blob, foreign key (file_id) references file (id), foreign key (context_id) references context (id), unique (file_id, context_id))",
            &[],
        )
    }

    fn make_arc<S: Alter>(&mut self, work: &mut Transaction<'_, S>) -> Result<(), StatementError> {
        self.run(
            work,
            "CREATE TABLE arc (file_id integer, context_id integer, fromno integer, tono integer, foreign key (file_id) references file (id), foreign key (context_id) references context (id), unique (file_id, context_id, fromno, tono))",
            &[],
        )
    }

    fn make_tracer<S: Alter>(
        &mut self,
        work: &mut Transaction<'_, S>,
    ) -> Result<(), StatementError> {
        self.run(
            work,
            "CREATE TABLE tracer (file_id integer primary key, tracer text, foreign key (file_id) references file (id))",
            &[],
        )
    }

    fn make_hits<S: Alter>(&mut self, work: &mut Transaction<'_, S>) -> Result<(), StatementError> {
        self.run(
            work,
            "CREATE TABLE hits (file_id integer, context_id integer, fromno integer, tono integer, count integer, unique (file_id, context_id, fromno, tono))",
            &[],
        )
    }

    fn insert_coverage_schema<S: Alter>(
        &mut self,
        work: &mut Transaction<'_, S>,
        version: i64,
    ) -> Result<(), StatementError> {
        let row = [ValueRef::Int(version)];
        self.run(
            work,
            "INSERT INTO coverage_schema (version) VALUES (?1)",
            &row,
        )
    }

    fn insert_meta<S: Alter>(
        &mut self,
        work: &mut Transaction<'_, S>,
        key: &str,
        value: &str,
    ) -> Result<(), StatementError> {
        let row = [
            ValueRef::Text(key.as_bytes()),
            ValueRef::Text(value.as_bytes()),
        ];
        self.run(work, "INSERT INTO meta (key, value) VALUES (?1, ?2)", &row)
    }

    fn insert_file<S: Alter>(
        &mut self,
        work: &mut Transaction<'_, S>,
        id: i64,
        path: &str,
    ) -> Result<(), StatementError> {
        let row = [ValueRef::Int(id), ValueRef::Text(path.as_bytes())];
        self.run(work, "INSERT INTO file (id, path) VALUES (?1, ?2)", &row)
    }

    fn insert_context<S: Alter>(
        &mut self,
        work: &mut Transaction<'_, S>,
        id: i64,
        text: &str,
    ) -> Result<(), StatementError> {
        let row = [ValueRef::Int(id), ValueRef::Text(text.as_bytes())];
        self.run(
            work,
            "INSERT INTO context (id, context) VALUES (?1, ?2)",
            &row,
        )
    }

    fn insert_line_bits<S: Alter>(
        &mut self,
        work: &mut Transaction<'_, S>,
        file_id: i64,
        context_id: i64,
        numbits: &[u8],
    ) -> Result<(), StatementError> {
        let row = [
            ValueRef::Int(file_id),
            ValueRef::Int(context_id),
            ValueRef::Blob(numbits),
        ];
        self.run(
            work,
            "INSERT INTO line_bits (file_id, context_id, numbits) VALUES (?1, ?2, ?3)",
            &row,
        )
    }

    fn insert_arc<S: Alter>(
        &mut self,
        work: &mut Transaction<'_, S>,
        file_id: i64,
        context_id: i64,
        fromno: i64,
        tono: i64,
    ) -> Result<(), StatementError> {
        let row = [
            ValueRef::Int(file_id),
            ValueRef::Int(context_id),
            ValueRef::Int(fromno),
            ValueRef::Int(tono),
        ];
        self.run(
            work,
            "INSERT INTO arc (file_id, context_id, fromno, tono) VALUES (?1, ?2, ?3, ?4)",
            &row,
        )
    }

    fn insert_hits<S: Alter>(
        &mut self,
        work: &mut Transaction<'_, S>,
        file_id: i64,
        context_id: i64,
        fromno: i64,
        tono: i64,
        count: i64,
    ) -> Result<(), StatementError> {
        let row = [
            ValueRef::Int(file_id),
            ValueRef::Int(context_id),
            ValueRef::Int(fromno),
            ValueRef::Int(tono),
            ValueRef::Int(count),
        ];
        self.run(
            work,
            "INSERT INTO hits (file_id, context_id, fromno, tono, count) VALUES (?1, ?2, ?3, ?4, ?5)",
            &row,
        )
    }

    fn delete_meta<S: Alter>(
        &mut self,
        work: &mut Transaction<'_, S>,
    ) -> Result<(), StatementError> {
        self.run(work, "DELETE FROM meta", &[])
    }

    fn delete_file<S: Alter>(
        &mut self,
        work: &mut Transaction<'_, S>,
    ) -> Result<(), StatementError> {
        self.run(work, "DELETE FROM file", &[])
    }

    fn delete_context<S: Alter>(
        &mut self,
        work: &mut Transaction<'_, S>,
    ) -> Result<(), StatementError> {
        self.run(work, "DELETE FROM context", &[])
    }

    fn delete_line_bits<S: Alter>(
        &mut self,
        work: &mut Transaction<'_, S>,
    ) -> Result<(), StatementError> {
        self.run(work, "DELETE FROM line_bits", &[])
    }

    fn delete_arc<S: Alter>(
        &mut self,
        work: &mut Transaction<'_, S>,
    ) -> Result<(), StatementError> {
        self.run(work, "DELETE FROM arc", &[])
    }

    fn delete_tracer<S: Alter>(
        &mut self,
        work: &mut Transaction<'_, S>,
    ) -> Result<(), StatementError> {
        self.run(work, "DELETE FROM tracer", &[])
    }

    fn delete_hits<S: Alter>(
        &mut self,
        work: &mut Transaction<'_, S>,
    ) -> Result<(), StatementError> {
        self.run(work, "DELETE FROM hits", &[])
    }

    fn commit<S: Alter>(&mut self, work: Transaction<'_, S>) -> Result<(), StatementError>
        ensures told { HasCleanDisk (state S.Store work.exit.0.now)
            → OnOk result (Commits (state S.Store work.entry.conn.now)
            (state S.Store work.exit.0.now)) }
        ensures undone { HasCleanDisk (state S.Store work.exit.0.now)
            → IsTrue (state S.Store work.entry.conn.now).in_transaction
            → OnErr result (IsRolledBack (state S.Store work.entry.conn.now)
            (state S.Store work.exit.0.now)) }
        ensures ended { work.exit.0.now.in_transaction ≡ false }
        ensures survives { Survives (state S.Store work.entry.conn.now)
            (state S.Store work.exit.0.now) (λ db.
            db ≡ (state S.Store work.entry.conn.now).now.trees) }
        ensures count { self.old.refusals ≤ self.new.refusals }
        ensures refused { IsErrOf result StatementError.Refused
            → Rose self.old.refusals self.new.refusals }
        ensures not_missing { IsErrOf result StatementError.Missing → ⊥ }
        ensures tells { ⟦<Counted as Statements>⟧.tells self.new }
    {
        match work.commit() {
            Ok(()) => Ok(()),
            Err(error) => Err(self.count_other(error)),
        }
    }
}
