//! The settings, and how they are read.
ghost use Rattle.std.specs.Prelude.{◌≡◌, IfOk};
ghost use Rattle.toml.specs.View.{table_view};
ghost use Rattle.cov_config.specs.Settings.{AreDefaults, settings_of, meaning_of};
ghost use Rattle.cov_config.specs.Plain.{settings_view, Answers};

use crate::forms::owned_texts;
use crate::paths::read_paths;
use crate::sections::{NO_BRANCH, NO_COVER, read_report, read_run};
use std::alloc::{AllocError, Global};
use toml::Table;

/// The settings under `tool.coverage`, each named by the last word of its key, with the default
/// where the key is absent.
#[derive(Drop)]
pub struct Config {
    pub branch: bool,
    /// The static context.
    pub context: String,
    pub data_file: String,
    /// Whether each test function has a context of its own.
    pub dynamic_context: bool,
    /// The most steps that a run takes: at most 1,000,000,000.
    pub budget: u64,
    /// The file and the name of the function that is asked for labels.
    pub hook: Option<(String, String)>,
    /// A percentage: at most 100.
    pub fail_under: u32,
    pub show_missing: bool,
    /// Patterns of the paths that reports leave out.
    pub omit: Vec<String>,
    pub exclude_lines: Vec<String>,
    /// Patterns beside those of `exclude_lines`.
    pub exclude_also: Vec<String>,
    pub partial_branches: Vec<String>,
    /// The rules of the aliases, in the byte order of their names.
    pub paths: Vec<(String, Vec<String>)>,
}

impl Config {
    /// The settings where no file sets any.
    pub fn defaults(alloc: Global) -> Result<Config, AllocError>
        ensures { IfOk result (λ c. AreDefaults (settings_view c)) }
    {
        Ok(Config {
            branch: false,
            context: String::new(alloc),
            data_file: String::from_str(alloc, ".coverage")?,
            dynamic_context: false,
            budget: 1_000_000,
            hook: None,
            fail_under: 0,
            show_missing: false,
            omit: Vec::new(alloc),
            exclude_lines: owned_texts(alloc, &[NO_COVER])?,
            exclude_also: Vec::new(alloc),
            partial_branches: owned_texts(alloc, &[NO_BRANCH])?,
            paths: Vec::new(alloc),
        })
    }
}

/// Why settings weren't read.
#[derive(Debug, Drop)]
pub enum ConfigError {
    /// The whole key whose value isn't of its form; empty where the bytes are no TOML document.
    BadConfig(String),
    NoMemory,
}

impl From<AllocError> for ConfigError {
    ghost use Rattle.cov_config.specs.declared.config.ConfigError.TheVariants.{NoMemory};

    ghost from_gives = { λ _ e. e ≡ NoMemory };

    fn from(_e: AllocError) -> ConfigError {
        ConfigError::NoMemory
    }
}

/// The settings that the bytes of a TOML file mean. Of several bad keys the first is named, in the
/// order of the fields of `Config`. Keys of other names are ignored.
pub fn read_config(alloc: Global, bytes: &[u8]) -> Result<Config, ConfigError>
    ensures { Answers settings_view (meaning_of bytes.now) result }
{
    match toml::table_from_slice(alloc, bytes) {
        Ok(table) => read_table(alloc, &table),
        Err(error) => {
            if error.is_memory() {
                return Err(ConfigError::NoMemory);
            }
            Err(ConfigError::BadConfig(String::new(alloc)))
        }
    }
}

fn read_table(alloc: Global, table: &Table) -> Result<Config, ConfigError>
    ensures { Answers settings_view (settings_of (table_view table.now)) result }
{
    let run = read_run(alloc, table)?;
    let report = read_report(alloc, table)?;
    let paths = read_paths(alloc, table)?;
    Ok(Config {
        branch: run.branch,
        context: run.context,
        data_file: run.data_file,
        dynamic_context: run.dynamic_context,
        budget: run.budget,
        hook: run.hook,
        fail_under: report.fail_under,
        show_missing: report.show_missing,
        omit: report.omit,
        exclude_lines: report.exclude_lines,
        exclude_also: report.exclude_also,
        partial_branches: report.partial_branches,
        paths,
    })
}
