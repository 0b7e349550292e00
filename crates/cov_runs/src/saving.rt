// The rows of a run, joined to those before and saved.
ghost use Rattle.std.specs.Prelude.{◌≡◌, IfOk};
ghost use Rattle.cov_calls.specs.Views.{answered_view, before_view};
ghost use Rattle.cov_programs.specs.Ends.{Follows};
ghost use Rattle.cov_programs.specs.Objects.{nobody};
ghost use Rattle.cov_runs.specs.Measured.{ran_view};
ghost use Rattle.cov_runs.specs.Rests.{kind_checked, saved};
ghost use Rattle.cov_step.specs.Calls.{Call, Answer, IsNoMemory, seen};
ghost use Rattle.cov_step.specs.Objects.{on_vault};
ghost use Rattle.cov_step.specs.Phases.{joined, joins, save_last};

use crate::ending::answered_by;
use cov_calls::{Answered, Before, bad_data, save_last};
use cov_data::{Data, DataError};
use cov_measure::Measured;
use cov_vault::Vault;
use cov_why::{BadKind, Why};
use std::alloc::{AllocError, Global};

/// What a run joins its rows to: the data under its name, where it appends and they are there. They
/// have to be of the same kind.
pub(crate) fn joins(
    alloc: Global,
    append: bool,
    own: &str,
    arcs: bool,
    was: Before,
) -> Result<Option<Data>, Why>
    ensures { Follows (nobody Call Answer) IsNoMemory
        (joins append own.now arcs (before_view was)) tt (seen (λ old. old) result) tt }
{
    if !append {
        return Ok(None);
    }
    match was {
        Before::Nothing => Ok(None),
        Before::There(content) => checked(arcs, content),
        Before::BadRow(row) => Err(bad_data(alloc, own, BadKind::BadRow(row))),
    }
}

/// Data of this kind.
fn checked(arcs: bool, content: Data) -> Result<Option<Data>, Why>
    ensures { Follows (nobody Call Answer) IsNoMemory (kind_checked arcs content) tt
        (seen (λ old. old) result) tt }
{
    let kind = content.is_arcs();
    if kind == arcs {
        Ok(Some(content))
    } else {
        Err(Why::Mixed(arcs, kind))
    }
}

/// Saves the rows of a run, joined to those before.
pub(crate) fn saved<V: Vault>(
    alloc: Global,
    own: &str,
    budget: u64,
    old: Option<Data>,
    m: Measured,
    vault: &mut V,
) -> Result<Answered, Why>
    ensures { Follows (on_vault V.Vault) IsNoMemory (saved own.now budget old (ran_view m))
        vault.old (seen answered_view result) vault.new }
{
    match answered_by(alloc, budget, &m.outcome) {
        Ok(answered) => save_joined(alloc, own, old, m.rows, answered, vault),
        Err(_) => Err(Why::NoMemory),
    }
}

fn save_joined<V: Vault>(
    alloc: Global,
    own: &str,
    old: Option<Data>,
    rows: Data,
    answered: Answered,
    vault: &mut V,
) -> Result<Answered, Why>
    ensures { Follows (on_vault V.Vault) IsNoMemory
        (save_last own.now (joined old rows) (answered_view answered))
        vault.old (seen answered_view result) vault.new }
{
    match joined(old, rows) {
        Ok(all) => save_last(alloc, own, &all, answered, vault),
        Err(_) => Err(Why::NoMemory),
    }
}

/// The rows of a run, joined to those before. `joins` has refused those of the other kind.
fn joined(old: Option<Data>, rows: Data) -> Result<Data, AllocError>
    ensures { IfOk result (λ all. all ≡ joined old rows) }
{
    match old {
        None => Ok(rows),
        Some(mut all) => match all.union(&rows) {
            Ok(()) => Ok(all),
            Err(DataError::NoMemory | DataError::Mixed { .. }) => Err(AllocError),
        },
    }
}
