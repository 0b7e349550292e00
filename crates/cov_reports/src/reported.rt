//! What `report`, `json` and `lcov` share: settings, patterns, data, and then the sources.
ghost use Rattle.std.specs.Option.{option_copied};
ghost use Rattle.std.specs.Prelude.{◌≡◌, ◌∷◌, All, map, string_bytes};
ghost use Rattle.cov_analysis.specs.Lines.{IsOfText};
ghost use Rattle.cov_config.specs.Plain.{settings_view};
ghost use Rattle.cov_programs.specs.Ends.{Follows};
ghost use Rattle.cov_programs.specs.Objects.{nobody};
ghost use Rattle.cov_programs.specs.Programs.{give};
ghost use Rattle.cov_step.specs.Calls.{Call, Answer, IsNoMemory, seen};
ghost use Rattle.cov_step.specs.Objects.{on_shelf};
ghost use Rattle.cov_step.specs.Phases.{reported, reported_in};
ghost use Rattle.cov_reports.specs.Objects.{on_data, on_sources};
ghost use Rattle.cov_reports.specs.Reports.{report_of, with_data, with_paths, with_settings};
ghost use Rattle.cov_reports.specs.Views.{source_view};
ghost use Rattle.cov_calls.specs.Views.{lists_view};
ghost use Rattle.cov_reports.specs.Views.{findings_view};

use crate::analyses::analyses;
use crate::findings::Findings;
use crate::paths::reported_paths;
use crate::sources::{ReportedSource, sources};
use cov_calls::{PatternLists, needed, own_name, patterns, settings};
use cov_config::Config;
use cov_data::Data;
use cov_exclude::Maker;
use cov_outside::Shelf;
use cov_vault::Vault;
use cov_why::Why;
use std::alloc::Global;

/// What data tell of the sources of their paths. The words go before the settings.
pub(crate) fn reported<H: Shelf, V: Vault, M: Maker>(
    alloc: Global,
    data_file: Option<&str>,
    rcfile: Option<&str>,
    shelf: &mut H,
    vault: &mut V,
    maker: &mut M,
) -> Result<Findings, Why>
    ensures { Follows (on_sources H.Shelf V.Vault M.Maker) IsNoMemory
        (reported (option_copied data_file.entry) (option_copied rcfile.entry))
        ((shelf.old, vault.old), maker.old) (seen findings_view result)
        ((shelf.new, vault.new), maker.new) }
{
    let settings = settings(alloc, rcfile, shelf)?;
    with_settings(alloc, data_file, settings, shelf, vault, maker)
}

fn with_settings<H: Shelf, V: Vault, M: Maker>(
    alloc: Global,
    data_file: Option<&str>,
    settings: Config,
    shelf: &mut H,
    vault: &mut V,
    maker: &mut M,
) -> Result<Findings, Why>
    ensures { Follows (on_sources H.Shelf V.Vault M.Maker) IsNoMemory
        (with_settings (option_copied data_file.entry) (settings_view settings))
        ((shelf.old, vault.old), maker.old) (seen findings_view result)
        ((shelf.new, vault.new), maker.new) }
{
    let patterns = patterns(alloc, &settings, maker)?;
    match own_name(alloc, data_file, &settings) {
        Ok(name) => with_patterns(alloc, settings, &patterns, name.as_str(), shelf, vault),
        Err(_) => Err(Why::NoMemory),
    }
}

fn with_patterns<H: Shelf, V: Vault>(
    alloc: Global,
    settings: Config,
    patterns: &PatternLists,
    name: &str,
    shelf: &mut H,
    vault: &mut V,
) -> Result<Findings, Why>
    ensures { Follows (on_data H.Shelf V.Vault) IsNoMemory
        (reported_in (settings_view settings) (lists_view patterns.now) name.now)
        (shelf.old, vault.old) (seen findings_view result) (shelf.new, vault.new) }
{
    let recorded = needed(alloc, name, vault)?;
    with_data(alloc, settings, patterns, name, &recorded, shelf)
}

fn with_data<H: Shelf>(
    alloc: Global,
    settings: Config,
    patterns: &PatternLists,
    name: &str,
    recorded: &Data,
    shelf: &mut H,
) -> Result<Findings, Why>
    ensures { Follows (on_shelf H.Shelf) IsNoMemory
        (with_data (settings_view settings) (lists_view patterns.now) name.now recorded.now)
        shelf.old (seen findings_view result) shelf.new }
{
    let paths = reported_paths(alloc, name, &settings.omit, recorded)?;
    with_paths(alloc, settings, patterns, recorded, &paths, shelf)
}

fn with_paths<H: Shelf>(
    alloc: Global,
    settings: Config,
    patterns: &PatternLists,
    recorded: &Data,
    paths: &[String],
    shelf: &mut H,
) -> Result<Findings, Why>
    ensures { Follows (on_shelf H.Shelf) IsNoMemory
        (with_paths (settings_view settings) (lists_view patterns.now) recorded.now
        (map string_bytes paths.now)) shelf.old (seen findings_view result) shelf.new }
{
    let sources = sources(alloc, paths, shelf)?;
    report_of(alloc, settings, patterns, recorded, &sources)
}

fn report_of(
    alloc: Global,
    settings: Config,
    patterns: &PatternLists,
    recorded: &Data,
    sources: &[ReportedSource],
) -> Result<Findings, Why>
    requires { All (λ source. IsOfText (source_view source).body) sources.now }
    ensures { Follows (nobody Call Answer) IsNoMemory
        (give (report_of (settings_view settings) (lists_view patterns.now) recorded.now
        (map source_view sources.now))) tt (seen findings_view result) tt }
{
    match analyses(alloc, sources, patterns, recorded) {
        Ok(files) => Ok(Findings {
            settings,
            arcs: recorded.is_arcs(),
            files,
        }),
        Err(_) => Err(Why::NoMemory),
    }
}
