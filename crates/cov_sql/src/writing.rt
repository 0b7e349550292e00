//! Writing a data file.
ghost use Rattle.std.specs.Prelude.{◌≡◌, ◌≢◌, ◌≤◌, ◌⊎◌, ℕ, true, false, Err, OnOk, OnErr, IsErrOf};
ghost use Rattle.cov_outside.specs.Counts.{Rose};
ghost use Rattle.sqlite.specs.Held.{state};
ghost use Rattle.sqlite.specs.State.{HasCleanDisk, KeepsCommit};
ghost use Rattle.cov_vault.specs.declared.vault.Content.TheVariants.{NotSchema7};
ghost use Rattle.cov_sql.specs.Content.{content_in};
ghost use Rattle.cov_sql.specs.Steps.{ReadsBy, WorksBy};
ghost use Rattle.cov_sql.specs.Making.{Saves, RefusesIfThere, NeverLacks};
ghost use Rattle.cov_sql.specs.Committed.{HasTable, Judges, EndsSaved, LeavesSaved};

use crate::errors::SqlError;
use crate::inserting::insert_all;
use crate::preparing::{Start, prepare};
use crate::reading::read_tables;
use crate::saved::Saved;
use crate::statements::{StatementError, Statements};
use cov_data::Data;
use cov_tables::is_schema_7;
use sqlite::{Alter, Connection, Transaction};
use std::alloc::Global;

fn write_all<S: Alter, Q: Statements>(
    work: &mut Transaction<'_, S>,
    by: &mut Q,
    start: Start,
    saved: &Saved,
) -> Result<(), StatementError>
    ensures steps { WorksBy S.Store Q.tells Q.refusals work.old work.new by.old by.new result }
    ensures saves { Q.tells by.old → Saves S.Store start saved.now
        work.old.conn.now work.new.conn.now result }
    ensures refuses { Q.tells by.old → RefusesIfThere S.Store start
        work.old.conn.now work.new.conn.now result }
    ensures never { Q.tells by.old → NeverLacks S.Store start
        work.old.conn.now work.new.conn.now result }
{
    prepare(work, by, start)?;
    insert_all(work, by, saved)
}

/// What the base has, where that may be saved over.
fn judged<S: Alter, Q: Statements>(
    alloc: Global,
    base: &mut Connection<S>,
    by: &mut Q,
    fresh: bool,
) -> Result<Start, SqlError>
    ensures told { Q.tells by.old
        → Judges fresh (state S.Store base.old) (state S.Store base.new) result }
    ensures reads { ReadsBy S.Store Q.tells Q.refusals base.old base.new by.old by.new result }
{
    if fresh {
        return Ok(Start::Nothing);
    }
    let found = read_tables(alloc, base, by)?;
    if !is_schema_7(&found.tables.coverage_schema) {
        return Err(SqlError::NotSchema7);
    }
    Ok(Start::Tables {
        has_hits: found.has_hits,
    })
}

/// Saves data in place of those that the base holds, in one transaction. A `fresh` base has none of
/// the tables, and they are made. After an error the base is out of any transaction, so its tables
/// are those that were committed.
pub fn write_data<S: Alter, Q: Statements>(
    alloc: Global,
    base: &mut Connection<S>,
    by: &mut Q,
    content: &Data,
    fresh: bool,
) -> Result<(), SqlError>
    requires { base.old.in_transaction ≡ false }
    ensures saved { Q.tells by.old → HasCleanDisk (state S.Store base.new)
        → OnOk result (EndsSaved S.Store content.now fresh base.old base.new) }
    ensures replaces { Q.tells by.old → HasCleanDisk (state S.Store base.new)
        → fresh ≡ false
        → OnOk result (content_in (state S.Store base.old).now ≢ NotSchema7) }

    ensures not_schema { Q.tells by.old → HasCleanDisk (state S.Store base.new)
        → IsErrOf result SqlError.NotSchema7
        → (fresh ≡ false) × (content_in (state S.Store base.old).now ≡ NotSchema7) }
    ensures not_bad_row { (row : ℕ) → IsErrOf result (SqlError.BadRow row) → ⊥ }
    ensures once { Q.tells by.old → HasCleanDisk (state S.Store base.new)
        → fresh ≡ true
        → HasTable (state S.Store base.old).now
        → (result ≡ Err SqlError.Refused) ⊎ (result ≡ Err SqlError.NoMemory) }
    ensures kept { Q.tells by.old → HasCleanDisk (state S.Store base.new)
        → OnErr result (KeepsCommit (state S.Store base.old) (state S.Store base.new)) }

    ensures crash { Q.tells by.old
        → LeavesSaved S.Store content.now fresh base.old base.new }
    ensures mode { base.new.in_transaction ≡ false }
    ensures tells { Q.tells by.old → Q.tells by.new }
    ensures count { Q.refusals by.old ≤ Q.refusals by.new }
    ensures refused { IsErrOf result SqlError.Refused
        → Rose (Q.refusals by.old) (Q.refusals by.new) }
{
    let saved = Saved::of(alloc, content)?;
    let start = judged(alloc, base, by, fresh)?;
    by.may_begin()?;
    let mut work = base.transaction();
    write_all(&mut work, by, start, &saved)?;
    Ok(by.commit(work)?)
}
