//! The settings of a command.
ghost use Rattle.std.specs.Prelude.{◌≡◌};
ghost use Rattle.std.specs.Option.{option_copied};
ghost use Rattle.cov_config.specs.Plain.{settings_view};
ghost use Rattle.cov_config.specs.Settings.{meaning_of};
ghost use Rattle.cov_programs.specs.Ends.{Follows};
ghost use Rattle.cov_programs.specs.Objects.{nobody};
ghost use Rattle.cov_step.specs.Answers.{given_or};
ghost use Rattle.cov_step.specs.Calls.{Call, Answer, IsNoMemory, seen};
ghost use Rattle.cov_step.specs.Objects.{on_shelf};
ghost use Rattle.cov_step.specs.Phases.{settings_file, settings};
ghost use Rattle.cov_why.specs.Answers.{plain_why, bad_config};

use crate::files::{MOST_BYTES, bytes_if_any, file};
use cov_config::{Config, ConfigError, read_config};
use cov_outside::Shelf;
use cov_why::Why;
use std::alloc::Global;

/// The settings: of the file that the words name, or else of `pyproject.toml`, which may be absent.
pub fn settings<H: Shelf>(alloc: Global, rcfile: Option<&str>, shelf: &mut H) -> Result<Config, Why>
    ensures { Follows (on_shelf H.Shelf) IsNoMemory (settings (option_copied rcfile.entry))
        shelf.old (seen settings_view result) shelf.new }
{
    let bytes = settings_file(alloc, rcfile, shelf)?;
    settings_of(alloc, bytes.as_slice())
}

fn settings_file<H: Shelf>(
    alloc: Global,
    rcfile: Option<&str>,
    shelf: &mut H,
) -> Result<Vec<u8>, Why>
    ensures { Follows (on_shelf H.Shelf) IsNoMemory
        (settings_file (option_copied rcfile.entry)) shelf.old
        (seen (λ bytes. bytes.items) result) shelf.new }
{
    match rcfile {
        Some(name) => file(alloc, name, shelf),
        None => bytes_if_any(alloc, shelf.read(alloc, "pyproject.toml", MOST_BYTES)),
    }
}

/// What the bytes of a file of settings set.
fn settings_of(alloc: Global, bytes: &[u8]) -> Result<Config, Why>
    ensures { Follows (nobody Call Answer) IsNoMemory (given_or bad_config (meaning_of bytes.now))
        tt (seen settings_view result) tt }
{
    match read_config(alloc, bytes) {
        Ok(settings) => Ok(settings),
        Err(ConfigError::BadConfig(key)) => Err(Why::BadConfig(key)),
        Err(ConfigError::NoMemory) => Err(Why::NoMemory),
    }
}
