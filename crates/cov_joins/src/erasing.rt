//! The command `erase`.
ghost use Rattle.std.specs.Prelude.{◌≡◌};
ghost use Rattle.std.specs.Option.{option_copied};
ghost use Rattle.cov_config.specs.Plain.{settings_view};
ghost use Rattle.cov_programs.specs.Ends.{Follows};
ghost use Rattle.cov_programs.specs.Objects.{beside};
ghost use Rattle.cov_step.specs.Calls.{IsNoMemory, seen};
ghost use Rattle.cov_step.specs.Commands.{erase};
ghost use Rattle.cov_step.specs.Objects.{on_shelf, on_vault};
ghost use Rattle.cov_step.specs.Phases.{done, own_name, remove_last};
ghost use Rattle.cov_calls.specs.Views.{answered_view};

use cov_calls::{Answered, own_name, remove_last, settings};
use cov_config::Config;
use cov_outside::Shelf;
use cov_vault::Vault;
use cov_why::Why;
use std::alloc::Global;

/// Removes the data file's data.
pub fn erase<H: Shelf, V: Vault>(
    alloc: Global,
    data_file: Option<&str>,
    rcfile: Option<&str>,
    shelf: &mut H,
    vault: &mut V,
) -> Result<Answered, Why>
    ensures { Follows (beside (on_shelf H.Shelf) (on_vault V.Vault)) IsNoMemory
        (erase (option_copied data_file.entry) (option_copied rcfile.entry))
        (shelf.old, vault.old) (seen answered_view result) (shelf.new, vault.new) }
{
    let settings = settings(alloc, rcfile, shelf)?;
    erase_by(alloc, data_file, &settings, vault)
}

/// The same by settings.
fn erase_by<V: Vault>(
    alloc: Global,
    data_file: Option<&str>,
    settings: &Config,
    vault: &mut V,
) -> Result<Answered, Why>
    ensures { Follows (on_vault V.Vault) IsNoMemory
        (remove_last (own_name (option_copied data_file.entry)
        (settings_view settings.now)) done)
        vault.old (seen answered_view result) vault.new }
{
    match own_name(alloc, data_file, settings) {
        Ok(own) => remove_last(alloc, own.as_str(), Answered::done(alloc), vault),
        Err(_) => Err(Why::NoMemory),
    }
}
