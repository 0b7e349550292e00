//! The command that marks the lines of one source.
ghost use Rattle.std.specs.Option.{option_copied};
ghost use Rattle.std.specs.Prelude.{◌≡◌, ◌∷◌, map, string_bytes};
ghost use Rattle.cov_analysis.specs.Lines.{IsOfText};
ghost use Rattle.cov_analysis.specs.Analyses.{analysis_view};
ghost use Rattle.cov_lcov.specs.Annotated.{annotated_bytes};
ghost use Rattle.cov_config.specs.Plain.{settings_view};
ghost use Rattle.cov_programs.specs.Ends.{Follows};
ghost use Rattle.cov_programs.specs.Objects.{beside};
ghost use Rattle.cov_step.specs.Calls.{IsNoMemory, seen};
ghost use Rattle.cov_step.specs.Commands.{annotate};
ghost use Rattle.cov_step.specs.Objects.{on_sink, on_shelf, on_vault};
ghost use Rattle.cov_step.specs.Phases.{done, needed, own_name, write_last};
ghost use Rattle.cov_reports.specs.Objects.{on_data, on_report};
ghost use Rattle.cov_reports.specs.Reports.{with_choice, with_marks, with_source, write_source};
ghost use Rattle.cov_calls.specs.Views.{answered_view, lists_view};
ghost use Rattle.cov_reports.specs.Views.{source_view};

use crate::analyses::analysis;
use crate::sources::{ReportedSource, source};
use cov_analysis::Analysis;
use cov_calls::{Answered, PatternLists, needed, own_name, patterns, settings, write_last};
use cov_config::Config;
use cov_data::Data;
use cov_exclude::Maker;
use cov_lcov::annotate as annotated;
use cov_outside::{Shelf, Sink};
use cov_vault::Vault;
use cov_why::Why;
use std::alloc::Global;

/// Writes the source of a path with the marks of its lines. All statements of one without rows are
/// missing, and `omit` omits none.
pub fn annotate<H: Shelf, V: Vault, M: Maker, O: Sink>(
    alloc: Global,
    data_file: Option<&str>,
    rcfile: Option<&str>,
    path: &str,
    shelf: &mut H,
    vault: &mut V,
    maker: &mut M,
    out: &mut O,
) -> Result<Answered, Why>
    ensures { Follows (on_report H.Shelf V.Vault M.Maker O.Sink) IsNoMemory
        (annotate (option_copied data_file.entry) (option_copied rcfile.entry) path.now)
        (((shelf.old, vault.old), maker.old), out.old) (seen answered_view result)
        (((shelf.new, vault.new), maker.new), out.new) }
{
    let settings = settings(alloc, rcfile, shelf)?;
    with_choice(alloc, data_file, path, &settings, shelf, vault, maker, out)
}

fn with_choice<H: Shelf, V: Vault, M: Maker, O: Sink>(
    alloc: Global,
    data_file: Option<&str>,
    path: &str,
    settings: &Config,
    shelf: &mut H,
    vault: &mut V,
    maker: &mut M,
    out: &mut O,
) -> Result<Answered, Why>
    ensures { Follows (on_report H.Shelf V.Vault M.Maker O.Sink) IsNoMemory
        (with_choice (option_copied data_file.entry) path.now (settings_view settings.now))
        (((shelf.old, vault.old), maker.old), out.old) (seen answered_view result)
        (((shelf.new, vault.new), maker.new), out.new) }
{
    let patterns = patterns(alloc, settings, maker)?;
    with_marks(
        alloc, settings, data_file, path, &patterns, shelf, vault, out,
    )
}

fn with_marks<H: Shelf, V: Vault, O: Sink>(
    alloc: Global,
    settings: &Config,
    data_file: Option<&str>,
    path: &str,
    patterns: &PatternLists,
    shelf: &mut H,
    vault: &mut V,
    out: &mut O,
) -> Result<Answered, Why>
    ensures { Follows (beside (on_data H.Shelf V.Vault) (on_sink O.Sink)) IsNoMemory
        (with_marks (settings_view settings.now) (option_copied data_file.entry) path.now
        (lists_view patterns.now)) ((shelf.old, vault.old), out.old)
        (seen answered_view result) ((shelf.new, vault.new), out.new) }
{
    let recorded = own_data(alloc, settings, data_file, vault)?;
    with_source(alloc, patterns, path, &recorded, shelf, out)
}

/// The data of the data file.
fn own_data<V: Vault>(
    alloc: Global,
    settings: &Config,
    data_file: Option<&str>,
    vault: &mut V,
) -> Result<Data, Why>
    ensures { Follows (on_vault V.Vault) IsNoMemory
        (needed (own_name (option_copied data_file.entry) (settings_view settings.now))) vault.old
        (seen (λ content. content) result) vault.new }
{
    match own_name(alloc, data_file, settings) {
        Ok(name) => needed(alloc, name.as_str(), vault),
        Err(_) => Err(Why::NoMemory),
    }
}

fn with_source<H: Shelf, O: Sink>(
    alloc: Global,
    patterns: &PatternLists,
    path: &str,
    recorded: &Data,
    shelf: &mut H,
    out: &mut O,
) -> Result<Answered, Why>
    ensures { Follows (beside (on_shelf H.Shelf) (on_sink O.Sink)) IsNoMemory
        (with_source (lists_view patterns.now) path.now recorded.now) (shelf.old, out.old)
        (seen answered_view result) (shelf.new, out.new) }
{
    let source = source(alloc, path, shelf)?;
    write_source(alloc, patterns, recorded, &source, out)
}

fn write_source<O: Sink>(
    alloc: Global,
    patterns: &PatternLists,
    recorded: &Data,
    source: &ReportedSource,
    out: &mut O,
) -> Result<Answered, Why>
    requires { IsOfText (source_view source.now).body }
    ensures { Follows (on_sink O.Sink) IsNoMemory
        (write_source (lists_view patterns.now) recorded.now (source_view source.now)) out.old
        (seen answered_view result) out.new }
{
    let Ok(file) = analysis(alloc, source, patterns, recorded) else {
        return Err(Why::NoMemory);
    };
    write_marked(alloc, &file, source.text.as_str(), out)
}

fn write_marked<O: Sink>(
    alloc: Global,
    file: &Analysis,
    text: &str,
    out: &mut O,
) -> Result<Answered, Why>
    ensures { Follows (on_sink O.Sink) IsNoMemory
        (write_last (annotated_bytes (analysis_view file.now) text.now) done) out.old
        (seen answered_view result) out.new }
{
    let Ok(marked) = annotated(alloc, file, text) else {
        return Err(Why::NoMemory);
    };
    let answered = Answered::done(alloc);
    write_last(alloc, marked.as_bytes(), answered, out)
}
