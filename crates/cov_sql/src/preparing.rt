//! Making the tables of a data file, and emptying them.
ghost use Rattle.std.specs.Prelude.{false};
ghost use Rattle.sqlite.specs.Held.{state};
ghost use Rattle.cov_sql.specs.declared.preparing.Start.TheVariants as start;
ghost use Rattle.cov_sql.specs.ByName.{shape_of, declared_as};
ghost use Rattle.cov_sql.specs.Written.{Makes};
ghost use Rattle.cov_sql.specs.Steps.{WorksBy};
ghost use Rattle.cov_sql.specs.Holding.{cleared, cleared_all, Empties};
ghost use Rattle.cov_sql.specs.Making.{Builds, Prepares, RefusesIfThere, NeverLacks};

use crate::statements::{StatementError, Statements};
use crate::tables::Table;
use sqlite::{Alter, Transaction};

/// Each after those that its rows refer to.
const TABLES: [Table; 8] = [
    Table::CoverageSchema,
    Table::Meta,
    Table::File,
    Table::Context,
    Table::LineBits,
    Table::Arc,
    Table::Tracer,
    Table::Hits,
];

/// The tables that are emptied, each before those that its rows refer to.
const OLD_TABLES: [Table; 7] = [
    Table::Arc,
    Table::Hits,
    Table::LineBits,
    Table::Tracer,
    Table::File,
    Table::Context,
    Table::Meta,
];

/// What a base has before data are saved in it.
#[derive(Clone, Copy, Drop)]
pub(crate) enum Start {
    Nothing,
    /// The tables of schema 7.
    Tables { has_hits: bool },
}

fn make_table<S: Alter, Q: Statements>(
    work: &mut Transaction<'_, S>,
    by: &mut Q,
    table: Table,
) -> Result<(), StatementError>
    ensures steps { WorksBy S.Store Q.tells Q.refusals work.old work.new by.old by.new result }
    ensures told { Q.tells by.old
        → Makes (shape_of table) (declared_as table) (state S.Store work.old.conn.now)
        (state S.Store work.new.conn.now) result }
{
    match table {
        Table::CoverageSchema => by.make_coverage_schema(work),
        Table::Meta => by.make_meta(work),
        Table::File => by.make_file(work),
        Table::Context => by.make_context(work),
        Table::LineBits => by.make_line_bits(work),
        Table::Arc => by.make_arc(work),
        Table::Tracer => by.make_tracer(work),
        Table::Hits => by.make_hits(work),
    }
}

fn empty_table<S: Alter, Q: Statements>(
    work: &mut Transaction<'_, S>,
    by: &mut Q,
    table: Table,
) -> Result<(), StatementError>
    ensures steps { WorksBy S.Store Q.tells Q.refusals work.old work.new by.old by.new result }
    ensures empties { Q.tells by.old → Empties S.Store (cleared table)
        work.old.conn.now work.new.conn.now result }
{
    match table {
        // The row of the version stays.
        Table::CoverageSchema => Ok(()),
        Table::Meta => by.delete_meta(work),
        Table::File => by.delete_file(work),
        Table::Context => by.delete_context(work),
        Table::LineBits => by.delete_line_bits(work),
        Table::Arc => by.delete_arc(work),
        Table::Tracer => by.delete_tracer(work),
        Table::Hits => by.delete_hits(work),
    }
}

fn make_tables<S: Alter, Q: Statements>(
    work: &mut Transaction<'_, S>,
    by: &mut Q,
    tables: &[Table],
) -> Result<(), StatementError>
    ensures steps { WorksBy S.Store Q.tells Q.refusals work.old work.new by.old by.new result }
    ensures builds { Q.tells by.old → Builds S.Store tables.now
        work.old.conn.now work.new.conn.now result }
{
    for table in tables {
        make_table(work, by, *table)?;
    }
    Ok(())
}

fn empty_tables<S: Alter, Q: Statements>(
    work: &mut Transaction<'_, S>,
    by: &mut Q,
    tables: &[Table],
) -> Result<(), StatementError>
    ensures steps { WorksBy S.Store Q.tells Q.refusals work.old work.new by.old by.new result }
    ensures empties { Q.tells by.old → Empties S.Store (cleared_all tables.now)
        work.old.conn.now work.new.conn.now result }
{
    for table in tables {
        empty_table(work, by, *table)?;
    }
    Ok(())
}

/// Makes a data file of schema 7 without data.
fn make_all<S: Alter, Q: Statements>(
    work: &mut Transaction<'_, S>,
    by: &mut Q,
) -> Result<(), StatementError>
    ensures steps { WorksBy S.Store Q.tells Q.refusals work.old work.new by.old by.new result }
    ensures prepares { Q.tells by.old → Prepares S.Store Start.Nothing
        work.old.conn.now work.new.conn.now result }
    ensures refuses { Q.tells by.old → RefusesIfThere S.Store Start.Nothing
        work.old.conn.now work.new.conn.now result }
    ensures never { Q.tells by.old → NeverLacks S.Store Start.Nothing
        work.old.conn.now work.new.conn.now result }
{
    make_tables(work, by, &TABLES)?;
    by.insert_coverage_schema(work, 7)
}

/// Leaves a data file of schema 7 without data, where it had no table of counts.
fn empty_and_count<S: Alter, Q: Statements>(
    work: &mut Transaction<'_, S>,
    by: &mut Q,
) -> Result<(), StatementError>
    ensures steps { WorksBy S.Store Q.tells Q.refusals work.old work.new by.old by.new result }
    ensures prepares { Q.tells by.old → Prepares S.Store (start.Tables false)
        work.old.conn.now work.new.conn.now result }
    ensures never { Q.tells by.old → NeverLacks S.Store (start.Tables false)
        work.old.conn.now work.new.conn.now result }
{
    make_table(work, by, Table::Hits)?;
    empty_tables(work, by, &OLD_TABLES)
}

/// Leaves a data file of schema 7 without data.
pub(crate) fn prepare<S: Alter, Q: Statements>(
    work: &mut Transaction<'_, S>,
    by: &mut Q,
    start: Start,
) -> Result<(), StatementError>
    ensures steps { WorksBy S.Store Q.tells Q.refusals work.old work.new by.old by.new result }
    ensures prepares { Q.tells by.old → Prepares S.Store start
        work.old.conn.now work.new.conn.now result }
    ensures refuses { Q.tells by.old → RefusesIfThere S.Store start
        work.old.conn.now work.new.conn.now result }
    ensures never { Q.tells by.old → NeverLacks S.Store start
        work.old.conn.now work.new.conn.now result }
{
    match start {
        Start::Nothing => make_all(work, by),
        Start::Tables { has_hits: true } => empty_tables(work, by, &OLD_TABLES),
        Start::Tables { has_hits: false } => empty_and_count(work, by),
    }
}
