//! Names of data.
ghost use Rattle.std.specs.Prelude.{◌≡◌, ◌≤◌, ◌∷◌, length, IfOk, string_bytes};
ghost use Rattle.std.specs.Option.{option_copied};
ghost use Rattle.cov_config.specs.Plain.{settings_view};
ghost use Rattle.cov_step.specs.Names.{once, bare, data_name};
ghost use Rattle.cov_step.specs.Phases.{own_name};

use cov_config::Config;
use std::alloc::{AllocError, Global};

/// The name of the data file: of the words, or else of the settings.
pub fn own_name(
    alloc: Global,
    data_file: Option<&str>,
    settings: &Config,
) -> Result<String, AllocError>
    ensures { IfOk result (λ name. string_bytes name
        ≡ own_name (option_copied data_file.entry) (settings_view settings.now)) }
{
    match data_file {
        Some(name) => data_name(alloc, name),
        None => data_name(alloc, settings.data_file.as_str()),
    }
}

/// A name of data as it is taken: without leading `./`, and with one `/` for several.
pub fn data_name(alloc: Global, name: &str) -> Result<String, AllocError>
    ensures { IfOk result (λ taken. string_bytes taken ≡ data_name name.now) }
{
    let once = once(alloc, name)?;
    String::from_str(alloc, bare(once.as_str()))
}

/// One `/` for several.
fn once(alloc: Global, name: &str) -> Result<String, AllocError>
    ensures { IfOk result (λ taken. string_bytes taken ≡ once name.now) }
{
    let mut taken = String::new(alloc);
    let mut rest = name;
    'slashes: while let Some((before, after)) = rest.split_once('/') {
        taken.push_str(before)?;
        taken.push('/')?;
        rest = after_slashes(after);
    }
    taken.push_str(rest)?;
    Ok(taken)
}

/// What follows further `/` behind one.
fn after_slashes(name: &str) -> &str
    ensures once { 47 ∷ once result.now ≡ once (47 ∷ name.now) }
    ensures shorter { length result.now ≤ length name.now }
{
    let mut rest = name;
    'slashes: while let Some(shorter) = rest.strip_prefix('/') {
        rest = shorter;
    }
    rest
}

/// The name without leading `./`.
fn bare(name: &str) -> &str
    ensures { result.now ≡ bare name.now }
{
    let mut rest = name;
    'dots: while let Some(shorter) = rest.strip_prefix("./") {
        rest = shorter;
    }
    rest
}
