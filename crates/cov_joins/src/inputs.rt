//! The inputs of `combine`.
ghost use Rattle.std.specs.Prelude.{◌≡◌, ◌<◌, ◌∷◌, ◌++◌, [], IfErr, IfOk, IsTrue, OnOk, ◌⊎◌, IsSome, List, length, map, filter, string_bytes};
ghost use Rattle.cov_programs.specs.Ends.{Follows};
ghost use Rattle.cov_programs.specs.Objects.{nobody};
ghost use Rattle.cov_programs.specs.Programs.{bind, each, give};
ghost use Rattle.cov_step.specs.Answers.{given_or, vault_refusal};
ghost use Rattle.cov_step.specs.Calls.{Call, Answer, IsNoMemory, Step, seen};
ghost use Rattle.cov_step.specs.Names.{data_name};
ghost use Rattle.cov_step.specs.Objects.{on_vault};
ghost use Rattle.cov_step.specs.Phases.{has_own, inputs, is_part_of, needed, own_input, some_input};
ghost use Rattle.cov_vault.specs.Answers.{names_listed};
ghost use Rattle.cov_calls.specs.Views.{before_view};
ghost use Rattle.cov_joins.specs.Parts.{list_of, parts_in};

use cov_calls::{Before, bad_data, data_name, needed, no_data, refused};
use cov_data::{Data, NoMemory};
use cov_vault::{Vault, VaultError};
use cov_why::{BadKind, Why};
use std::alloc::Global;

/// The inputs: those that the words name, or all parts of the data file, in order.
pub(crate) fn inputs<V: Vault>(
    alloc: Global,
    own: &str,
    names: &[String],
    vault: &mut V,
) -> Result<Vec<String>, Why>
    ensures { Follows (on_vault V.Vault) IsNoMemory (inputs own.now (map string_bytes names.now))
        vault.old (seen (λ names. map string_bytes names.items) result) vault.new }
{
    if names.is_empty() {
        return parts_in(alloc, own, vault.names(alloc));
    }
    match data_names(alloc, names) {
        Ok(names) => Ok(names),
        Err(_) => Err(Why::NoMemory),
    }
}

fn data_names(alloc: Global, names: &[String]) -> Result<Vec<String>, NoMemory>
    ensures { IfOk result (λ taken.
        map string_bytes taken.items ≡ map data_name (map string_bytes names.now)) }
{
    let mut taken = Vec::new(alloc);
    for name in names {
        taken.push(data_name(alloc, name.as_str())?)?;
    }
    Ok(taken)
}

/// The parts of the data file among the names of the vault.
fn parts_in(
    alloc: Global,
    own: &str,
    answer: Result<Vec<String>, VaultError>,
) -> Result<Vec<String>, Why>
    ensures { Follows (nobody Call Answer) IsNoMemory (parts_in own.now (names_listed answer)) tt
        (seen (λ names. map string_bytes names.items) result) tt }
{
    match answer {
        Ok(found) => match parts_of(alloc, own, found) {
            Ok(parts) => Ok(parts),
            Err(_) => Err(Why::NoMemory),
        },
        Err(error) => Err(refused(alloc, own, error)),
    }
}

fn parts_of(alloc: Global, own: &str, found: Vec<String>) -> Result<Vec<String>, NoMemory>
    ensures { IfOk result (λ parts.
        map string_bytes parts.items ≡ filter (is_part_of own.now) (map string_bytes found.items)) }
{
    let mut start = String::from_str(alloc, own)?;
    start.push('.')?;
    let mut parts = Vec::new(alloc);
    for name in found {
        if name.starts_with(start.as_str()) {
            parts.push(name)?;
        }
    }
    Ok(parts)
}

/// Whether the data file's own data are an input.
pub(crate) fn has_own(append: bool, was: &Before) -> bool
    ensures { result ≡ has_own append (before_view was.now) }
{
    append
        && match was {
            Before::Nothing => false,
            Before::There(_) | Before::BadRow(_) => true,
        }
}

/// Refuses where there is no input.
pub(crate) fn some_input(
    alloc: Global,
    own: &str,
    has_own: bool,
    others: &[String],
) -> Result<(), Why>
    ensures follows { Follows (nobody Call Answer) IsNoMemory
        (some_input own.now has_own (map string_bytes others.now)) tt (seen (λ _. tt) result) tt }
    ensures some { OnOk result (IsTrue has_own ⊎ (0 < length others.now)) }
{
    if has_own || !others.is_empty() {
        return Ok(());
    }
    Err(no_data(alloc, own))
}

/// The data file's own data, as the first input.
pub(crate) fn own_input(
    alloc: Global,
    append: bool,
    own: &str,
    was: Before,
) -> Result<Option<Data>, Why>
    ensures follows { Follows (nobody Call Answer) IsNoMemory
        (own_input append own.now (before_view was)) tt (seen list_of result) tt }
    ensures some { IsTrue (has_own append (before_view was)) → IfOk result IsSome }
{
    if !append {
        return Ok(None);
    }
    match was {
        Before::Nothing => Ok(None),
        Before::There(content) => Ok(Some(content)),
        Before::BadRow(row) => Err(bad_data(alloc, own, BadKind::BadRow(row))),
    }
}

/// The data of these names, in order.
pub(crate) fn needed_all<V: Vault>(
    alloc: Global,
    names: &[String],
    vault: &mut V,
) -> Result<Vec<Data>, Why>
    ensures follows { Follows (on_vault V.Vault) IsNoMemory
        (each needed (map string_bytes names.now)) vault.old
        (seen (λ all. all.items) result) vault.new }
    ensures all { IfOk result (λ all. length all.items ≡ length names.now) }
{
    let mut all = Vec::new(alloc);
    for name in names {
        let content = needed(alloc, name.as_str(), vault)?;
        add(&mut all, content)?;
    }
    Ok(all)
}

fn add(all: &mut Vec<Data>, content: Data) -> Result<(), Why>
    ensures added { OnOk result (all.new.items ≡ all.old.items ++ content ∷ []) }
    ensures refused { IfErr result (λ why. why ≡ Why.NoMemory) }
{
    match all.push(content) {
        Ok(()) => Ok(()),
        Err(_) => Err(Why::NoMemory),
    }
}
