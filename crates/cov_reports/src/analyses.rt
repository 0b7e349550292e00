//! The analyses of sources.
ghost use Rattle.std.specs.Prelude.{◌≡◌, ◌∷◌, ◌++◌, [], All, map, IfOk, OnOk};
ghost use Rattle.cov_analysis.specs.Analyses.{AreReportable, IsReportable, analysis_view};
ghost use Rattle.cov_analysis.specs.Lines.{IsOfText};
ghost use Rattle.cov_step.specs.Phases.{analysed};
ghost use Rattle.cov_calls.specs.Views.{lists_view};
ghost use Rattle.cov_reports.specs.Views.{source_view};

use crate::sources::ReportedSource;
use cov_analysis::{Analysis, analyse};
use cov_calls::PatternLists;
use cov_data::Data;
use py_text::NoMemory;
use std::alloc::Global;

/// The analyses of sources, in their order, by recorded data.
pub(crate) fn analyses(
    alloc: Global,
    sources: &[ReportedSource],
    patterns: &PatternLists,
    recorded: &Data,
) -> Result<Vec<Analysis>, NoMemory>
    requires { All (λ source. IsOfText (source_view source).body) sources.now }
    ensures analyses { IfOk result (λ files. map analysis_view files.items
        ≡ map (analysed (lists_view patterns.now) recorded.now) (map source_view sources.now)) }
    ensures reportable { IfOk result (λ files. AreReportable files.items) }
{
    let mut files = Vec::new(alloc);
    for source in sources {
        let file = analysis(alloc, source, patterns, recorded)?;
        push(&mut files, file)?;
    }
    Ok(files)
}

/// The analysis of a source.
pub(crate) fn analysis(
    alloc: Global,
    source: &ReportedSource,
    patterns: &PatternLists,
    recorded: &Data,
) -> Result<Analysis, NoMemory>
    requires { IsOfText (source_view source.now).body }
    ensures analysis { IfOk result (λ file. analysis_view file
        ≡ analysed (lists_view patterns.now) recorded.now (source_view source.now)) }
    ensures reportable { IfOk result (λ file. IsReportable (analysis_view file)) }
{
    analyse(
        alloc,
        &source.module,
        source.text.as_str(),
        &patterns.exclude,
        &patterns.partial,
        recorded,
        source.path.as_str(),
    )
}

fn push(files: &mut Vec<Analysis>, file: Analysis) -> Result<(), NoMemory>
    ensures { OnOk result (files.new.items ≡ files.old.items ++ file ∷ []) }
{
    files.push(file)?;
    Ok(())
}
