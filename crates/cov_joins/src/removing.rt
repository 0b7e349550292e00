//! The inputs of `combine` are removed.
ghost use Rattle.std.specs.Prelude.{◌≡◌, ◌||◌, [], IfOk, map, string_bytes};
ghost use Rattle.std.specs.BTreeSet.{contains_text};
ghost use Rattle.std.specs.Str.{bytes_eq};
ghost use Rattle.cov_programs.specs.Ends.{Follows};
ghost use Rattle.cov_programs.specs.Programs.{bind, each, give};
ghost use Rattle.cov_step.specs.Calls.{IsNoMemory, seen};
ghost use Rattle.cov_step.specs.Names.{removable};
ghost use Rattle.cov_step.specs.Objects.{on_vault};
ghost use Rattle.cov_step.specs.Phases.{removing, done};
ghost use Rattle.cov_calls.specs.Views.{answered_view};
ghost use Rattle.cov_joins.specs.Parts.{finishing};

use cov_calls::{Answered, remove};
use cov_data::NoMemory;
use cov_vault::Vault;
use cov_why::Why;
use std::alloc::Global;
use std::collections::BTreeSet;

/// Removes the inputs, unless they are kept: each once, and never the data file.
pub(crate) fn finish<V: Vault>(
    alloc: Global,
    keep: bool,
    own: &str,
    others: &[String],
    vault: &mut V,
) -> Result<Answered, Why>
    ensures { Follows (on_vault V.Vault) IsNoMemory
        (finishing keep own.now (map string_bytes others.now)) vault.old
        (seen answered_view result) vault.new }
{
    if keep {
        return Ok(Answered::done(alloc));
    }
    match removable(alloc, own, others) {
        Ok(names) => remove_each(alloc, names.as_slice(), vault),
        Err(_) => Err(Why::NoMemory),
    }
}

fn remove_each<V: Vault>(alloc: Global, names: &[&str], vault: &mut V) -> Result<Answered, Why>
    ensures { Follows (on_vault V.Vault) IsNoMemory
        (bind (each removing (map (λ name. name.now) names.now)) (λ _. give done)) vault.old
        (seen answered_view result) vault.new }
{
    for name in names {
        remove(alloc, name, vault)?;
    }
    Ok(Answered::done(alloc))
}

/// The inputs that are removed.
fn removable<'a>(alloc: Global, own: &str, others: &'a [String]) -> Result<Vec<&'a str>, NoMemory>
    ensures { IfOk result (λ names.
        map (λ name. name.now) names.items ≡ removable own.now [] (map string_bytes others.now)) }
{
    let mut done = BTreeSet::new(alloc);
    let mut names = Vec::new(alloc);
    for name in others {
        let name = name.as_str();
        if !stays(own, &done, name) {
            done.insert(String::from_str(alloc, name)?)?;
            names.push(name)?;
        }
    }
    Ok(names)
}

/// Whether an input isn't removed, after those that are done.
fn stays(own: &str, done: &BTreeSet<String>, name: &str) -> bool
    ensures { result ≡ (bytes_eq name.now own.now || contains_text done.now name.now) }
{
    name == own || done.contains(name)
}
