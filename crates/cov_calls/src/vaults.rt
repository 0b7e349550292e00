//! Data of a vault.
ghost use Rattle.std.specs.Prelude.{◌≡◌};
ghost use Rattle.cov_programs.specs.Ends.{Follows};
ghost use Rattle.cov_programs.specs.Objects.{nobody};
ghost use Rattle.cov_programs.specs.Programs.{give, settle};
ghost use Rattle.cov_step.specs.Answers.{before_of, given_or, last, load_refusal, on, removed, vault_refusal};
ghost use Rattle.cov_step.specs.Calls.{Call, Answer, IsNoMemory, seen};
ghost use Rattle.cov_step.specs.Objects.{on_vault};
ghost use Rattle.cov_step.specs.Phases.{before, needed, remove_last, removing, save_last, saving};
ghost use Rattle.cov_vault.specs.Answers.{refusal_of};
ghost use Rattle.cov_why.specs.Answers.{bad_data, no_data, plain_why};
ghost use Rattle.cov_calls.specs.Views.{RefusedBy, answered_view, before_view};

use crate::answered::Answered;
use cov_data::Data;
use cov_vault::{Vault, VaultError};
use cov_why::{BadKind, Why};
use std::alloc::Global;

/// Data that a command needs.
pub fn needed<V: Vault>(alloc: Global, name: &str, vault: &mut V) -> Result<Data, Why>
    ensures { Follows (on_vault V.Vault) IsNoMemory (needed name.now) vault.old
        (seen (λ content. content) result) vault.new }
{
    needed_of(alloc, name, vault.load(alloc, name))
}

fn needed_of(alloc: Global, name: &str, answer: Result<Data, VaultError>) -> Result<Data, Why>
    ensures { Follows (nobody Call Answer) IsNoMemory (given_or (load_refusal name.now) answer) tt
        (seen (λ content. content) result) tt }
{
    match answer {
        Ok(content) => Ok(content),
        Err(VaultError::Absent) => Err(no_data(alloc, name)),
        Err(VaultError::NotSchema7) => Err(bad_data(alloc, name, BadKind::NotSchema7)),
        Err(VaultError::BadRow(row)) => Err(bad_data(alloc, name, BadKind::BadRow(row))),
        Err(VaultError::Failed) => Err(Why::VaultFault),
        Err(VaultError::NoMemory) => Err(Why::NoMemory),
    }
}

/// What stands under the name of a command's data before it.
#[derive(Drop)]
pub enum Before {
    Nothing,
    There(Data),
    /// A data file whose row of this number, from 0, is none.
    BadRow(u64),
}

/// What stands under the name of a command's data. No data file of schema 7 is refused.
pub fn target<V: Vault>(alloc: Global, name: &str, vault: &mut V) -> Result<Before, Why>
    ensures { Follows (on_vault V.Vault) IsNoMemory (before name.now) vault.old
        (seen before_view result) vault.new }
{
    target_of(alloc, name, vault.load(alloc, name))
}

fn target_of(alloc: Global, name: &str, answer: Result<Data, VaultError>) -> Result<Before, Why>
    ensures { Follows (nobody Call Answer) IsNoMemory (before_of name.now answer) tt
        (seen before_view result) tt }
{
    match answer {
        Ok(content) => Ok(Before::There(content)),
        Err(VaultError::Absent) => Ok(Before::Nothing),
        Err(VaultError::NotSchema7) => Err(bad_data(alloc, name, BadKind::NotSchema7)),
        Err(VaultError::BadRow(row)) => Ok(Before::BadRow(row)),
        Err(VaultError::Failed) => Err(Why::VaultFault),
        Err(VaultError::NoMemory) => Err(Why::NoMemory),
    }
}

/// Saves data, as the last thing that a command does.
pub fn save_last<V: Vault>(
    alloc: Global,
    name: &str,
    content: &Data,
    answered: Answered,
    vault: &mut V,
) -> Result<Answered, Why>
    ensures { Follows (on_vault V.Vault) IsNoMemory
        (save_last name.now content.now (answered_view answered))
        vault.old (seen answered_view result) vault.new }
{
    saved_last(alloc, name, answered, vault.save(alloc, name, content))
}

fn saved_last(
    alloc: Global,
    name: &str,
    answered: Answered,
    answer: Result<(), VaultError>,
) -> Result<Answered, Why>
    ensures { Follows (nobody Call Answer) IsNoMemory
        (last (vault_refusal name.now) (answered_view answered) (refusal_of answer)) tt
        (seen answered_view result) tt }
{
    match answer {
        Ok(()) => Ok(answered),
        Err(error) => Err(refused(alloc, name, error)),
    }
}

/// Saves data on the way.
pub fn save<V: Vault>(alloc: Global, name: &str, content: &Data, vault: &mut V) -> Result<(), Why>
    ensures { Follows (on_vault V.Vault) IsNoMemory
        (saving name.now content.now) vault.old
        (seen (λ _. tt) result) vault.new }
{
    saved(alloc, name, vault.save(alloc, name, content))
}

fn saved(alloc: Global, name: &str, answer: Result<(), VaultError>) -> Result<(), Why>
    ensures { Follows (nobody Call Answer) IsNoMemory
        (on (vault_refusal name.now) (refusal_of answer)) tt (seen (λ _. tt) result) tt }
{
    match answer {
        Ok(()) => Ok(()),
        Err(error) => Err(refused(alloc, name, error)),
    }
}

/// Removes data, as the last thing that a command does. That none was there is no refusal.
pub fn remove_last<V: Vault>(
    alloc: Global,
    name: &str,
    answered: Answered,
    vault: &mut V,
) -> Result<Answered, Why>
    ensures { Follows (on_vault V.Vault) IsNoMemory
        (remove_last name.now (answered_view answered)) vault.old
        (seen answered_view result) vault.new }
{
    removed_last(answered, vault.remove(alloc, name))
}

fn removed_last(answered: Answered, answer: Result<(), VaultError>) -> Result<Answered, Why>
    ensures { Follows (nobody Call Answer) IsNoMemory
        (removed (settle (answered_view answered)) (refusal_of answer)) tt
        (seen answered_view result) tt }
{
    match answer {
        Ok(()) | Err(VaultError::Absent) => Ok(answered),
        Err(VaultError::NotSchema7 | VaultError::BadRow(_) | VaultError::Failed) => {
            Err(Why::VaultFault)
        }
        Err(VaultError::NoMemory) => Err(Why::NoMemory),
    }
}

/// Removes data on the way.
pub fn remove<V: Vault>(alloc: Global, name: &str, vault: &mut V) -> Result<(), Why>
    ensures { Follows (on_vault V.Vault) IsNoMemory (removing name.now) vault.old
        (seen (λ _. tt) result) vault.new }
{
    removed(vault.remove(alloc, name))
}

fn removed(answer: Result<(), VaultError>) -> Result<(), Why>
    ensures { Follows (nobody Call Answer) IsNoMemory (removed (give (tt {0})) (refusal_of answer)) tt
        (seen (λ _. tt) result) tt }
{
    match answer {
        Ok(()) | Err(VaultError::Absent) => Ok(()),
        Err(VaultError::NotSchema7 | VaultError::BadRow(_) | VaultError::Failed) => {
            Err(Why::VaultFault)
        }
        Err(VaultError::NoMemory) => Err(Why::NoMemory),
    }
}

/// Why a call that only may fail was refused.
pub fn refused(alloc: Global, name: &str, error: VaultError) -> Why
    ensures { RefusedBy (vault_refusal name.now error) result }
{
    match error {
        VaultError::Absent => Why::VaultFault,
        VaultError::NotSchema7 => bad_data(alloc, name, BadKind::NotSchema7),
        VaultError::BadRow(row) => bad_data(alloc, name, BadKind::BadRow(row)),
        VaultError::Failed => Why::VaultFault,
        VaultError::NoMemory => Why::NoMemory,
    }
}

/// Data of this name aren't there.
pub fn no_data(alloc: Global, name: &str) -> Why
    ensures { RefusedBy (no_data name.now) result }
{
    match String::from_str(alloc, name) {
        Ok(name) => Why::NoData(name),
        Err(_) => Why::NoMemory,
    }
}

/// Data of this name can't be read.
pub fn bad_data(alloc: Global, name: &str, kind: BadKind) -> Why
    ensures { RefusedBy (bad_data name.now kind) result }
{
    match String::from_str(alloc, name) {
        Ok(name) => Why::BadData(name, kind),
        Err(_) => Why::NoMemory,
    }
}
