//! Reading a data file.
ghost use Rattle.std.specs.Prelude.{◌≡◌, ◌≤◌, [], ℕ, false, option_map, IfOk, OnOk, IsErrOf};
ghost use Rattle.std.specs.Option.{unwrap_or};
ghost use Rattle.cov_outside.specs.Counts.{Rose};
ghost use Rattle.sqlite.specs.Effect.{Database};
ghost use Rattle.sqlite.specs.Held.{state};
ghost use Rattle.sqlite.specs.State.{HasCleanDisk, IsUnchanged};
ghost use Rattle.cov_vault.specs.declared.vault.Content.TheVariants.{Good, NotSchema7, BadRow};
ghost use Rattle.cov_sql.specs.Told.{EndsAs};
ghost use Rattle.cov_sql.specs.Calls.{IsFault, GoesOn, Asks, LeavesNoMore};
ghost use Rattle.cov_sql.specs.Content.{content_in, IsFound};
ghost use Rattle.cov_sql.specs.Finds.{SeeksCounts, IsNamed, IsMeasured, FindsNamed, FindsMeasured, FindsAll};
ghost use Rattle.cov_sql.specs.Steps.{ReadsBy};

use crate::errors::SqlError;
use crate::statements::{StatementError, Statements};
use cov_data::Data;
use cov_tables::{RowCells, Tables, content_of};
use cov_vault::Content;
use sqlite::{Alter, Connection};
use std::alloc::Global;

/// What was read of a data file, and whether it has the table of counts.
#[derive(Drop)]
pub(crate) struct Found {
    pub(crate) tables: Tables,
    pub(crate) has_hits: bool,
}

/// The tables that rows refer to, and those without rows of data.
#[derive(Drop)]
pub(crate) struct Named {
    pub(crate) coverage_schema: Vec<RowCells>,
    pub(crate) meta: Vec<RowCells>,
    pub(crate) file: Vec<RowCells>,
    pub(crate) context: Vec<RowCells>,
}

/// The tables with rows of data.
#[derive(Drop)]
pub(crate) struct Measured {
    pub(crate) line_bits: Vec<RowCells>,
    pub(crate) arc: Vec<RowCells>,
    /// None where the table isn't there.
    pub(crate) hits: Option<Vec<RowCells>>,
}

fn hits_rows<S: Alter, Q: Statements>(
    alloc: Global,
    base: &mut Connection<S>,
    by: &mut Q,
) -> Result<Option<Vec<RowCells>>, SqlError>
    ensures told { Q.tells by.old
        → SeeksCounts (state S.Store base.old) (state S.Store base.new) result }
    ensures not_schema { IsErrOf result SqlError.NotSchema7 → ⊥ }
    ensures survives { Q.tells by.old → LeavesNoMore S.Store base.old base.new }
    ensures not_bad_row { (row : ℕ) → IsErrOf result (SqlError.BadRow row) → ⊥ }
    ensures asks { Asks S.Store base.old base.new }
    ensures goes_on { GoesOn Q.tells Q.refusals by.old by.new (IsFault result) }
{
    match by.read_hits(alloc, base) {
        Ok(rows) => Ok(Some(rows)),
        Err(StatementError::Missing) => Ok(None),
        Err(StatementError::Refused) => Err(SqlError::Refused),
        Err(StatementError::NoMemory) => Err(SqlError::NoMemory),
    }
}

fn read_named<S: Alter, Q: Statements>(
    alloc: Global,
    base: &mut Connection<S>,
    by: &mut Q,
) -> Result<Named, SqlError>
    ensures told { Q.tells by.old
        → FindsNamed (state S.Store base.old) (state S.Store base.new) result }
    ensures reads { ReadsBy S.Store Q.tells Q.refusals base.old base.new by.old by.new result }
{
    let coverage_schema = by.read_coverage_schema(alloc, base)?;
    let meta = by.read_meta(alloc, base)?;
    let file = by.read_file(alloc, base)?;
    let context = by.read_context(alloc, base)?;
    Ok(Named {
        coverage_schema,
        meta,
        file,
        context,
    })
}

fn read_measured<S: Alter, Q: Statements>(
    alloc: Global,
    base: &mut Connection<S>,
    by: &mut Q,
) -> Result<Measured, SqlError>
    ensures told { Q.tells by.old
        → FindsMeasured (state S.Store base.old) (state S.Store base.new) result }
    ensures reads { ReadsBy S.Store Q.tells Q.refusals base.old base.new by.old by.new result }
{
    let line_bits = by.read_line_bits(alloc, base)?;
    let arc = by.read_arc(alloc, base)?;
    let _tracer = by.read_tracer(alloc, base)?;
    let hits = hits_rows(alloc, base, by)?;
    Ok(Measured {
        line_bits,
        arc,
        hits,
    })
}

/// All tables of a data file.
pub(crate) fn read_tables<S: Alter, Q: Statements>(
    alloc: Global,
    base: &mut Connection<S>,
    by: &mut Q,
) -> Result<Found, SqlError>
    ensures told { Q.tells by.old
        → FindsAll (state S.Store base.old) (state S.Store base.new) result }
    ensures reads { ReadsBy S.Store Q.tells Q.refusals base.old base.new by.old by.new result }
{
    let named = read_named(alloc, base, by)?;
    let measured = read_measured(alloc, base, by)?;
    Ok(found_in(alloc, named, measured))
}

fn found_in(alloc: Global, named: Named, measured: Measured) -> Found
    ensures { (db : Database) → IsNamed db named → IsMeasured db measured → IsFound db result }
{
    let Named {
        coverage_schema,
        meta,
        file,
        context,
    } = named;
    let Measured {
        line_bits,
        arc,
        hits,
    } = measured;
    let has_hits = hits.is_some();
    Found {
        tables: Tables {
            coverage_schema,
            meta,
            file,
            context,
            line_bits,
            arc,
            hits: rows_if(alloc, hits),
        },
        has_hits,
    }
}

/// No row where the table isn't there.
fn rows_if(alloc: Global, rows: Option<Vec<RowCells>>) -> Vec<RowCells>
    ensures { result.items ≡ unwrap_or (option_map (λ rows. rows.items) rows) [] }
{
    match rows {
        Some(rows) => rows,
        None => Vec::new(alloc),
    }
}

/// The data that a data file holds.
pub fn read_data<S: Alter, Q: Statements>(
    alloc: Global,
    base: &mut Connection<S>,
    by: &mut Q,
) -> Result<Data, SqlError>
    ensures good { Q.tells by.old → HasCleanDisk (state S.Store base.new)
        → IfOk result (λ loaded. content_in (state S.Store base.old).now ≡ Good loaded) }
    ensures not_schema { Q.tells by.old → HasCleanDisk (state S.Store base.new)
        → IsErrOf result SqlError.NotSchema7
        → content_in (state S.Store base.old).now ≡ NotSchema7 }
    ensures bad_row { Q.tells by.old → HasCleanDisk (state S.Store base.new)
        → (row : ℕ) → IsErrOf result (SqlError.BadRow row)
        → content_in (state S.Store base.old).now ≡ BadRow row }
    ensures kept { Q.tells by.old → HasCleanDisk (state S.Store base.new)
        → OnOk result (IsUnchanged (state S.Store base.old) (state S.Store base.new)) }
    ensures ends { Q.tells by.old → HasCleanDisk (state S.Store base.new)
        → EndsAs (state S.Store base.old) (state S.Store base.new) }
    ensures survives { Q.tells by.old → LeavesNoMore S.Store base.old base.new }
    ensures tells { Q.tells by.old → Q.tells by.new }
    ensures clean { HasCleanDisk (state S.Store base.new) → HasCleanDisk (state S.Store base.old) }
    ensures mode { base.old.in_transaction ≡ false → base.new.in_transaction ≡ false }
    ensures count { Q.refusals by.old ≤ Q.refusals by.new }
    ensures refused { IsErrOf result SqlError.Refused
        → Rose (Q.refusals by.old) (Q.refusals by.new) }
{
    let found = read_tables(alloc, base, by)?;
    match content_of(alloc, found.tables)? {
        Content::Good(whole) => Ok(whole),
        Content::NotSchema7 => Err(SqlError::NotSchema7),
        Content::BadRow(row) => Err(SqlError::BadRow(row)),
    }
}
