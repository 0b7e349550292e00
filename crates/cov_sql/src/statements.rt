//! The statements on a data file.
ghost use Rattle.std.specs.Prelude.{◌≡◌, [], ◌∷◌, ℕ, ◌≤◌, false, IsTrue, OnOk, OnErr, IsErrOf};
ghost use Rattle.cov_outside.specs.Counts.{Rose};
ghost use Rattle.sqlite.specs.Held.{state};
ghost use Rattle.cov_sql.specs.Tables.{coverage_schema, meta, file, context, line_bits, arc, tracer, hits};
ghost use Rattle.sqlite.specs.State.{HasCleanDisk, Survives, Commits, IsRolledBack};
ghost use Rattle.cov_sql.specs.Calls.{IsRefused, GoesOn, Asks, ReadsFrom, WorksAs};
ghost use Rattle.cov_sql.specs.Written.{Deletes, Inserts, Makes};
ghost use Rattle.cov_sql.specs.SqlTexts.{make_coverage_schema_text, make_meta_text, make_file_text, make_context_text, make_line_bits_text, make_arc_text, make_tracer_text, make_hits_text, insert_coverage_schema_text, insert_meta_text, insert_file_text, insert_context_text, insert_line_bits_text, insert_arc_text, insert_hits_text, delete_meta_text, delete_file_text, delete_context_text, delete_line_bits_text, delete_arc_text, delete_tracer_text, delete_hits_text};
ghost use Rattle.sqlite_value.specs.declared.value.Value.TheVariants.{Int, Text, Blob};
ghost use Rattle.cov_sql.specs.Declarations.{declared_coverage_schema, declared_meta, declared_file, declared_context, declared_line_bits, declared_arc, declared_tracer, declared_hits};

use cov_tables::RowCells;
use sqlite::{Alter, Connection, Transaction};
use std::alloc::Global;
use thiserror::Error;

/// Why a statement gave nothing.
#[derive(Clone, Copy, Debug, PartialEq, Eq, Error)]
pub enum StatementError {
    #[error("a table or a column is missing")]
    Missing,
    #[error("the database refused a statement")]
    Refused,
    #[error("no memory")]
    NoMemory,
}

/// Statements on the tables of a data file. Each reading one gives the rows of its table, each as
/// the list of its cells in the order of the table's columns.
pub trait Statements {
    // How often a statement was refused.
    ghost refusals: { Self → ℕ };

    // Whether the statements tell the tables.
    ghost tells: { Self → Type 0 };

    fn read_coverage_schema<S: Alter>(
        &mut self,
        alloc: Global,
        base: &mut Connection<S>,
    ) -> Result<Vec<RowCells>, StatementError>
        ensures reads { tells self.old
            → ReadsFrom S.Store coverage_schema base.old base.new result }
        ensures asks { Asks S.Store base.old base.new }
        ensures goes_on { GoesOn tells refusals self.old self.new (IsRefused result) };

    fn read_meta<S: Alter>(
        &mut self,
        alloc: Global,
        base: &mut Connection<S>,
    ) -> Result<Vec<RowCells>, StatementError>
        ensures reads { tells self.old → ReadsFrom S.Store meta base.old base.new result }
        ensures asks { Asks S.Store base.old base.new }
        ensures goes_on { GoesOn tells refusals self.old self.new (IsRefused result) };

    fn read_file<S: Alter>(
        &mut self,
        alloc: Global,
        base: &mut Connection<S>,
    ) -> Result<Vec<RowCells>, StatementError>
        ensures reads { tells self.old → ReadsFrom S.Store file base.old base.new result }
        ensures asks { Asks S.Store base.old base.new }
        ensures goes_on { GoesOn tells refusals self.old self.new (IsRefused result) };

    fn read_context<S: Alter>(
        &mut self,
        alloc: Global,
        base: &mut Connection<S>,
    ) -> Result<Vec<RowCells>, StatementError>
        ensures reads { tells self.old → ReadsFrom S.Store context base.old base.new result }
        ensures asks { Asks S.Store base.old base.new }
        ensures goes_on { GoesOn tells refusals self.old self.new (IsRefused result) };

    fn read_line_bits<S: Alter>(
        &mut self,
        alloc: Global,
        base: &mut Connection<S>,
    ) -> Result<Vec<RowCells>, StatementError>
        ensures reads { tells self.old → ReadsFrom S.Store line_bits base.old base.new result }
        ensures asks { Asks S.Store base.old base.new }
        ensures goes_on { GoesOn tells refusals self.old self.new (IsRefused result) };

    fn read_arc<S: Alter>(
        &mut self,
        alloc: Global,
        base: &mut Connection<S>,
    ) -> Result<Vec<RowCells>, StatementError>
        ensures reads { tells self.old → ReadsFrom S.Store arc base.old base.new result }
        ensures asks { Asks S.Store base.old base.new }
        ensures goes_on { GoesOn tells refusals self.old self.new (IsRefused result) };

    fn read_tracer<S: Alter>(
        &mut self,
        alloc: Global,
        base: &mut Connection<S>,
    ) -> Result<Vec<RowCells>, StatementError>
        ensures reads { tells self.old → ReadsFrom S.Store tracer base.old base.new result }
        ensures asks { Asks S.Store base.old base.new }
        ensures goes_on { GoesOn tells refusals self.old self.new (IsRefused result) };

    fn read_hits<S: Alter>(
        &mut self,
        alloc: Global,
        base: &mut Connection<S>,
    ) -> Result<Vec<RowCells>, StatementError>
        ensures reads { tells self.old → ReadsFrom S.Store hits base.old base.new result }
        ensures asks { Asks S.Store base.old base.new }
        ensures goes_on { GoesOn tells refusals self.old self.new (IsRefused result) };

    /// A statement in a test may refuse here, before a transaction begins.
    fn may_begin(&mut self) -> Result<(), StatementError>
        ensures not_missing { IsErrOf result StatementError.Missing → ⊥ }
        ensures goes_on { GoesOn tells refusals self.old self.new (IsRefused result) };

    fn make_coverage_schema<S: Alter>(
        &mut self,
        work: &mut Transaction<'_, S>,
    ) -> Result<(), StatementError>
        ensures works { tells self.old → WorksAs S.Store make_coverage_schema_text
            (Makes coverage_schema declared_coverage_schema)
            work.old.conn.now work.new.conn.now result }
        ensures same_reference { work.new.conn.ghost_name ≡ work.old.conn.ghost_name }
        ensures goes_on { GoesOn tells refusals self.old self.new (IsRefused result) };

    fn make_meta<S: Alter>(&mut self, work: &mut Transaction<'_, S>) -> Result<(), StatementError>
        ensures works { tells self.old → WorksAs S.Store make_meta_text (Makes meta declared_meta)
            work.old.conn.now work.new.conn.now result }
        ensures same_reference { work.new.conn.ghost_name ≡ work.old.conn.ghost_name }
        ensures goes_on { GoesOn tells refusals self.old self.new (IsRefused result) };

    fn make_file<S: Alter>(&mut self, work: &mut Transaction<'_, S>) -> Result<(), StatementError>
        ensures works { tells self.old → WorksAs S.Store make_file_text (Makes file declared_file)
            work.old.conn.now work.new.conn.now result }
        ensures same_reference { work.new.conn.ghost_name ≡ work.old.conn.ghost_name }
        ensures goes_on { GoesOn tells refusals self.old self.new (IsRefused result) };

    fn make_context<S: Alter>(
        &mut self,
        work: &mut Transaction<'_, S>,
    ) -> Result<(), StatementError>
        ensures works { tells self.old → WorksAs S.Store make_context_text
            (Makes context declared_context) work.old.conn.now work.new.conn.now result }
        ensures same_reference { work.new.conn.ghost_name ≡ work.old.conn.ghost_name }
        ensures goes_on { GoesOn tells refusals self.old self.new (IsRefused result) };

    fn make_line_bits<S: Alter>(
        &mut self,
        work: &mut Transaction<'_, S>,
    ) -> Result<(), StatementError>
        ensures works { tells self.old → WorksAs S.Store make_line_bits_text
            (Makes line_bits declared_line_bits) work.old.conn.now work.new.conn.now result }
        ensures same_reference { work.new.conn.ghost_name ≡ work.old.conn.ghost_name }
        ensures goes_on { GoesOn tells refusals self.old self.new (IsRefused result) };

    fn make_arc<S: Alter>(&mut self, work: &mut Transaction<'_, S>) -> Result<(), StatementError>
        ensures works { tells self.old → WorksAs S.Store make_arc_text (Makes arc declared_arc)
            work.old.conn.now work.new.conn.now result }
        ensures same_reference { work.new.conn.ghost_name ≡ work.old.conn.ghost_name }
        ensures goes_on { GoesOn tells refusals self.old self.new (IsRefused result) };

    fn make_tracer<S: Alter>(&mut self, work: &mut Transaction<'_, S>) -> Result<(), StatementError>
        ensures works { tells self.old → WorksAs S.Store make_tracer_text
            (Makes tracer declared_tracer) work.old.conn.now work.new.conn.now result }
        ensures same_reference { work.new.conn.ghost_name ≡ work.old.conn.ghost_name }
        ensures goes_on { GoesOn tells refusals self.old self.new (IsRefused result) };

    fn make_hits<S: Alter>(&mut self, work: &mut Transaction<'_, S>) -> Result<(), StatementError>
        ensures works { tells self.old → WorksAs S.Store make_hits_text (Makes hits declared_hits)
            work.old.conn.now work.new.conn.now result }
        ensures same_reference { work.new.conn.ghost_name ≡ work.old.conn.ghost_name }
        ensures goes_on { GoesOn tells refusals self.old self.new (IsRefused result) };

    fn insert_coverage_schema<S: Alter>(
        &mut self,
        work: &mut Transaction<'_, S>,
        version: i64,
    ) -> Result<(), StatementError>
        ensures works { tells self.old → WorksAs S.Store insert_coverage_schema_text
            (Inserts coverage_schema declared_coverage_schema (Int version ∷ []))
            work.old.conn.now work.new.conn.now result }
        ensures same_reference { work.new.conn.ghost_name ≡ work.old.conn.ghost_name }
        ensures goes_on { GoesOn tells refusals self.old self.new (IsRefused result) };

    fn insert_meta<S: Alter>(
        &mut self,
        work: &mut Transaction<'_, S>,
        key: &str,
        value: &str,
    ) -> Result<(), StatementError>
        ensures works { tells self.old → WorksAs S.Store insert_meta_text
            (Inserts meta declared_meta (Text key.now ∷ Text value.now ∷ []))
            work.old.conn.now work.new.conn.now result }
        ensures same_reference { work.new.conn.ghost_name ≡ work.old.conn.ghost_name }
        ensures goes_on { GoesOn tells refusals self.old self.new (IsRefused result) };

    fn insert_file<S: Alter>(
        &mut self,
        work: &mut Transaction<'_, S>,
        id: i64,
        path: &str,
    ) -> Result<(), StatementError>
        ensures works { tells self.old → WorksAs S.Store insert_file_text
            (Inserts file declared_file (Int id ∷ Text path.now ∷ []))
            work.old.conn.now work.new.conn.now result }
        ensures same_reference { work.new.conn.ghost_name ≡ work.old.conn.ghost_name }
        ensures goes_on { GoesOn tells refusals self.old self.new (IsRefused result) };

    fn insert_context<S: Alter>(
        &mut self,
        work: &mut Transaction<'_, S>,
        id: i64,
        text: &str,
    ) -> Result<(), StatementError>
        ensures works { tells self.old → WorksAs S.Store insert_context_text
            (Inserts context declared_context (Int id ∷ Text text.now ∷ []))
            work.old.conn.now work.new.conn.now result }
        ensures same_reference { work.new.conn.ghost_name ≡ work.old.conn.ghost_name }
        ensures goes_on { GoesOn tells refusals self.old self.new (IsRefused result) };

    fn insert_line_bits<S: Alter>(
        &mut self,
        work: &mut Transaction<'_, S>,
        file_id: i64,
        context_id: i64,
        numbits: &[u8],
    ) -> Result<(), StatementError>
        ensures works { tells self.old → WorksAs S.Store insert_line_bits_text
            (Inserts line_bits declared_line_bits
            (Int file_id ∷ Int context_id ∷ Blob numbits.now ∷ []))
            work.old.conn.now work.new.conn.now result }
        ensures same_reference { work.new.conn.ghost_name ≡ work.old.conn.ghost_name }
        ensures goes_on { GoesOn tells refusals self.old self.new (IsRefused result) };

    fn insert_arc<S: Alter>(
        &mut self,
        work: &mut Transaction<'_, S>,
        file_id: i64,
        context_id: i64,
        fromno: i64,
        tono: i64,
    ) -> Result<(), StatementError>
        ensures works { tells self.old → WorksAs S.Store insert_arc_text
            (Inserts arc declared_arc (Int file_id ∷ Int context_id ∷ Int fromno ∷ Int tono ∷ []))
            work.old.conn.now work.new.conn.now result }
        ensures same_reference { work.new.conn.ghost_name ≡ work.old.conn.ghost_name }
        ensures goes_on { GoesOn tells refusals self.old self.new (IsRefused result) };

    fn insert_hits<S: Alter>(
        &mut self,
        work: &mut Transaction<'_, S>,
        file_id: i64,
        context_id: i64,
        fromno: i64,
        tono: i64,
        count: i64,
    ) -> Result<(), StatementError>
        ensures works { tells self.old → WorksAs S.Store insert_hits_text
            (Inserts hits declared_hits
            (Int file_id ∷ Int context_id ∷ Int fromno ∷ Int tono ∷ Int count ∷ []))
            work.old.conn.now work.new.conn.now result }
        ensures same_reference { work.new.conn.ghost_name ≡ work.old.conn.ghost_name }
        ensures goes_on { GoesOn tells refusals self.old self.new (IsRefused result) };

    fn delete_meta<S: Alter>(&mut self, work: &mut Transaction<'_, S>) -> Result<(), StatementError>
        ensures works { tells self.old → WorksAs S.Store delete_meta_text (Deletes meta)
            work.old.conn.now work.new.conn.now result }
        ensures same_reference { work.new.conn.ghost_name ≡ work.old.conn.ghost_name }
        ensures goes_on { GoesOn tells refusals self.old self.new (IsRefused result) };

    fn delete_file<S: Alter>(&mut self, work: &mut Transaction<'_, S>) -> Result<(), StatementError>
        ensures works { tells self.old → WorksAs S.Store delete_file_text (Deletes file)
            work.old.conn.now work.new.conn.now result }
        ensures same_reference { work.new.conn.ghost_name ≡ work.old.conn.ghost_name }
        ensures goes_on { GoesOn tells refusals self.old self.new (IsRefused result) };

    fn delete_context<S: Alter>(
        &mut self,
        work: &mut Transaction<'_, S>,
    ) -> Result<(), StatementError>
        ensures works { tells self.old → WorksAs S.Store delete_context_text (Deletes context)
            work.old.conn.now work.new.conn.now result }
        ensures same_reference { work.new.conn.ghost_name ≡ work.old.conn.ghost_name }
        ensures goes_on { GoesOn tells refusals self.old self.new (IsRefused result) };

    fn delete_line_bits<S: Alter>(
        &mut self,
        work: &mut Transaction<'_, S>,
    ) -> Result<(), StatementError>
        ensures works { tells self.old → WorksAs S.Store delete_line_bits_text (Deletes line_bits)
            work.old.conn.now work.new.conn.now result }
        ensures same_reference { work.new.conn.ghost_name ≡ work.old.conn.ghost_name }
        ensures goes_on { GoesOn tells refusals self.old self.new (IsRefused result) };

    fn delete_arc<S: Alter>(&mut self, work: &mut Transaction<'_, S>) -> Result<(), StatementError>
        ensures works { tells self.old → WorksAs S.Store delete_arc_text (Deletes arc)
            work.old.conn.now work.new.conn.now result }
        ensures same_reference { work.new.conn.ghost_name ≡ work.old.conn.ghost_name }
        ensures goes_on { GoesOn tells refusals self.old self.new (IsRefused result) };

    fn delete_tracer<S: Alter>(
        &mut self,
        work: &mut Transaction<'_, S>,
    ) -> Result<(), StatementError>
        ensures works { tells self.old → WorksAs S.Store delete_tracer_text (Deletes tracer)
            work.old.conn.now work.new.conn.now result }
        ensures same_reference { work.new.conn.ghost_name ≡ work.old.conn.ghost_name }
        ensures goes_on { GoesOn tells refusals self.old self.new (IsRefused result) };

    fn delete_hits<S: Alter>(&mut self, work: &mut Transaction<'_, S>) -> Result<(), StatementError>
        ensures works { tells self.old → WorksAs S.Store delete_hits_text (Deletes hits)
            work.old.conn.now work.new.conn.now result }
        ensures same_reference { work.new.conn.ghost_name ≡ work.old.conn.ghost_name }
        ensures goes_on { GoesOn tells refusals self.old self.new (IsRefused result) };

    /// Ends the transaction, whose tables become those of the base. A commit that fails undoes it.
    fn commit<S: Alter>(&mut self, work: Transaction<'_, S>) -> Result<(), StatementError>
        ensures told { HasCleanDisk (state S.Store work.exit.0.now)
            → OnOk result (Commits (state S.Store work.entry.conn.now)
            (state S.Store work.exit.0.now)) }
        ensures undone { HasCleanDisk (state S.Store work.exit.0.now)
            → IsTrue (state S.Store work.entry.conn.now).in_transaction
            → OnErr result (IsRolledBack (state S.Store work.entry.conn.now)
            (state S.Store work.exit.0.now)) }
        ensures ended { work.exit.0.now.in_transaction ≡ false }
        ensures survives { Survives (state S.Store work.entry.conn.now)
            (state S.Store work.exit.0.now) (λ db.
            db ≡ (state S.Store work.entry.conn.now).now.trees) }
        ensures not_missing { IsErrOf result StatementError.Missing → ⊥ }
        ensures tells { tells self.old → tells self.new }
        ensures count { refusals self.old ≤ refusals self.new }
        ensures refused { IsErrOf result StatementError.Refused
            → Rose (refusals self.old) (refusals self.new) };
}
