//! The command `combine`.
ghost use Rattle.std.specs.Prelude.{◌≡◌, ◌<◌, ◌++◌, IfOk, List, length, map, string_bytes};
ghost use Rattle.std.specs.Option.{option_copied};
ghost use Rattle.cov_combine.specs.Aliases.{alias_of, rules_from};
ghost use Rattle.cov_combine.specs.Combined.{combined, flag_of, has_both_kinds};
ghost use Rattle.cov_config.specs.Plain.{rules_view, settings_view};
ghost use Rattle.cov_programs.specs.Ends.{Follows};
ghost use Rattle.cov_programs.specs.Objects.{beside, nobody};
ghost use Rattle.cov_step.specs.Calls.{Call, Answer, IsNoMemory, seen};
ghost use Rattle.cov_step.specs.Commands.{combine};
ghost use Rattle.cov_step.specs.Objects.{on_shelf, on_vault};
ghost use Rattle.cov_step.specs.Phases.{own_name, same_kind};
ghost use Rattle.cov_calls.specs.Views.{answered_view, before_view};
ghost use Rattle.cov_joins.specs.Parts.{combining, gathering, joining, list_of};

use crate::inputs::{has_own, inputs, needed_all, own_input, some_input};
use crate::removing::finish;
use cov_calls::{Answered, Before, own_name, save, settings, target};
use cov_combine::{AliasRules, CombineError, combine as joined};
use cov_config::Config;
use cov_data::{Data, NoMemory};
use cov_outside::Shelf;
use cov_vault::Vault;
use cov_why::Why;
use std::alloc::Global;

/// What `combine` is given besides files: whether the data file's own data are an input too, and
/// whether the inputs are kept.
#[derive(Clone, Copy, Debug)]
pub struct CombineOptions {
    pub append: bool,
    pub keep: bool,
}

/// Joins the data of the named inputs, or of all parts of the data file, under their aliases, saves
/// them as the data file's, and removes the inputs.
pub fn combine<H: Shelf, V: Vault>(
    alloc: Global,
    how: CombineOptions,
    data_file: Option<&str>,
    rcfile: Option<&str>,
    names: &[String],
    shelf: &mut H,
    vault: &mut V,
) -> Result<Answered, Why>
    ensures { Follows (beside (on_shelf H.Shelf) (on_vault V.Vault)) IsNoMemory
        (combine how.append how.keep (option_copied data_file.entry)
        (option_copied rcfile.entry) (map string_bytes names.now))
        (shelf.old, vault.old) (seen answered_view result) (shelf.new, vault.new) }
{
    let settings = settings(alloc, rcfile, shelf)?;
    combine_by(alloc, how, data_file, names, &settings, vault)
}

/// The same by settings.
fn combine_by<V: Vault>(
    alloc: Global,
    how: CombineOptions,
    data_file: Option<&str>,
    names: &[String],
    settings: &Config,
    vault: &mut V,
) -> Result<Answered, Why>
    ensures { Follows (on_vault V.Vault) IsNoMemory
        (combining how.append how.keep
        (own_name (option_copied data_file.entry) (settings_view settings.now))
        (settings_view settings.now).paths (map string_bytes names.now))
        vault.old (seen answered_view result) vault.new }
{
    match own_name(alloc, data_file, settings) {
        Ok(own) => combine_into(
            alloc,
            how,
            own.as_str(),
            settings.paths.as_slice(),
            names,
            vault,
        ),
        Err(_) => Err(Why::NoMemory),
    }
}

/// The same into the data of a name.
fn combine_into<V: Vault>(
    alloc: Global,
    how: CombineOptions,
    own: &str,
    paths: &[(String, Vec<String>)],
    names: &[String],
    vault: &mut V,
) -> Result<Answered, Why>
    ensures { Follows (on_vault V.Vault) IsNoMemory
        (combining how.append how.keep own.now (rules_view paths.now) (map string_bytes names.now))
        vault.old (seen answered_view result) vault.new }
{
    let standing = target(alloc, own, vault)?;
    let others = inputs(alloc, own, names, vault)?;
    gather(alloc, how, own, paths, standing, others.as_slice(), vault)
}

/// Loads the inputs, after the data file's own data.
fn gather<V: Vault>(
    alloc: Global,
    how: CombineOptions,
    own: &str,
    paths: &[(String, Vec<String>)],
    was: Before,
    others: &[String],
    vault: &mut V,
) -> Result<Answered, Why>
    ensures { Follows (on_vault V.Vault) IsNoMemory
        (gathering how.append how.keep own.now (rules_view paths.now) (before_view was)
        (map string_bytes others.now))
        vault.old (seen answered_view result) vault.new }
{
    some_input(alloc, own, has_own(how.append, &was), others)?;
    let first = own_input(alloc, how.append, own, was)?;
    let rest = needed_all(alloc, others, vault)?;
    join(alloc, how.keep, own, paths, others, first, rest, vault)
}

/// Joins the inputs, and stores what they come to.
fn join<V: Vault>(
    alloc: Global,
    keep: bool,
    own: &str,
    paths: &[(String, Vec<String>)],
    others: &[String],
    first: Option<Data>,
    rest: Vec<Data>,
    vault: &mut V,
) -> Result<Answered, Why>
    requires { 0 < length (list_of first ++ rest.items) }
    ensures { Follows (on_vault V.Vault) IsNoMemory
        (joining keep own.now (rules_view paths.now) (map string_bytes others.now)
        (list_of first ++ rest.items))
        vault.old (seen answered_view result) vault.new }
{
    let all = united(alloc, first, rest, paths)?;
    save(alloc, own, &all, vault)?;
    finish(alloc, keep, own, others, vault)
}

/// The union of the inputs, each path under its alias.
fn united(
    alloc: Global,
    first: Option<Data>,
    rest: Vec<Data>,
    paths: &[(String, Vec<String>)],
) -> Result<Data, Why>
    requires { 0 < length (list_of first ++ rest.items) }
    ensures kind { Follows (nobody Call Answer) IsNoMemory (same_kind (list_of first ++ rest.items))
        tt (seen (λ _. list_of first ++ rest.items) result) tt }
    ensures data { IfOk result (λ all.
        all ≡ combined (alias_of (rules_from (rules_view paths.now)))
        (list_of first ++ rest.items)) }
{
    let Ok(inputs) = in_one_list(alloc, first, rest) else {
        return Err(Why::NoMemory);
    };
    let Ok(rules) = AliasRules::read(alloc, paths) else {
        return Err(Why::NoMemory);
    };
    match joined(alloc, inputs.as_slice(), &rules) {
        Ok(all) => Ok(all),
        Err(CombineError::Mixed { first, other }) => Err(Why::Mixed(first, other)),
        Err(CombineError::NoMemory) => Err(Why::NoMemory),
    }
}

fn in_one_list(alloc: Global, first: Option<Data>, rest: Vec<Data>) -> Result<Vec<Data>, NoMemory>
    ensures { IfOk result (λ inputs. inputs.items ≡ list_of first ++ rest.items) }
{
    match first {
        Some(first) => {
            let mut inputs = Vec::new(alloc);
            inputs.push(first)?;
            for input in rest {
                inputs.push(input)?;
            }
            Ok(inputs)
        }
        None => Ok(rest),
    }
}
