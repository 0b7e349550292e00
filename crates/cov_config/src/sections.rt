//! The sections `run` and `report`.
ghost use Rattle.toml.specs.View.{table_view};
ghost use Rattle.cov_config.specs.Settings.{run_of, report_of};
ghost use Rattle.cov_config.specs.Plain.{Answers};
ghost use Rattle.cov_config.specs.Sections.{run_view, report_view};

use crate::ConfigError;
use crate::keys::{filled_text, flag, hook, names_tests, number, text, texts};
use std::alloc::Global;
use toml::Table;

/// The pattern of `# pragma: no cover`.
pub(crate) const NO_COVER: &str = r"#\s*(pragma|PRAGMA)[:\s]?\s*(no|NO)\s*(cover|COVER)";

/// The pattern of `# pragma: no branch`.
pub(crate) const NO_BRANCH: &str = r"#\s*(pragma|PRAGMA)[:\s]?\s*(no|NO)\s*(branch|BRANCH)";

#[derive(Drop)]
pub(crate) struct RunKeys {
    pub(crate) branch: bool,
    pub(crate) context: String,
    pub(crate) data_file: String,
    pub(crate) dynamic_context: bool,
    pub(crate) budget: u64,
    pub(crate) hook: Option<(String, String)>,
}

#[derive(Drop)]
pub(crate) struct ReportKeys {
    pub(crate) fail_under: u32,
    pub(crate) show_missing: bool,
    pub(crate) omit: Vec<String>,
    pub(crate) exclude_lines: Vec<String>,
    pub(crate) exclude_also: Vec<String>,
    pub(crate) partial_branches: Vec<String>,
}

pub(crate) fn read_run(alloc: Global, table: &Table) -> Result<RunKeys, ConfigError>
    ensures { Answers run_view (run_of (table_view table.now)) result }
{
    let branch = flag(alloc, table, "run", "branch")?;
    let context = text(alloc, table, "run", "context")?;
    let data_file = filled_text(alloc, table, "run", "data_file", ".coverage")?;
    let dynamic_context = names_tests(alloc, table, "run", "dynamic_context")?;
    let budget = number(alloc, table, "run", "budget", 1_000_000, 1_000_000_000)?;
    let hook = hook(alloc, table, "run", "hook")?;
    Ok(RunKeys {
        branch,
        context,
        data_file,
        dynamic_context,
        budget,
        hook,
    })
}

pub(crate) fn read_report(alloc: Global, table: &Table) -> Result<ReportKeys, ConfigError>
    ensures { Answers report_view (report_of (table_view table.now)) result }
{
    let fail_under = number(alloc, table, "report", "fail_under", 0, 100)? as u32;
    let show_missing = flag(alloc, table, "report", "show_missing")?;
    let omit = texts(alloc, table, "report", "omit", &[])?;
    let exclude_lines = texts(alloc, table, "report", "exclude_lines", &[NO_COVER])?;
    let exclude_also = texts(alloc, table, "report", "exclude_also", &[])?;
    let partial_branches = texts(alloc, table, "report", "partial_branches", &[NO_BRANCH])?;
    Ok(ReportKeys {
        fail_under,
        show_missing,
        omit,
        exclude_lines,
        exclude_also,
        partial_branches,
    })
}
