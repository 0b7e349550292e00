//! What the text of a source tells.
ghost use Rattle.std.specs.Prelude.{◌≡◌, IfOk};
ghost use Rattle.py_syntax.specs.View.{plain_module};
ghost use Rattle.cov_analysis.specs.Analyses.{source_of};
ghost use Rattle.cov_analysis.specs.Views.{source_view};

use cov_exclude::{Patterns, excluded, no_branch};
use cov_predict::{ArcSet, predict, statements};
use py_syntax::Module;
use py_text::NoMemory;
use std::alloc::Global;

/// The statement lines of a source, those that are excluded, those that needn't take all of their
/// branches, and the arcs that are predicted. All lists rise.
#[derive(Drop)]
pub(crate) struct Source {
    pub(crate) lines: Vec<u32>,
    pub(crate) excluded: Vec<u32>,
    pub(crate) no_branch: Vec<u32>,
    pub(crate) arcs: ArcSet,
}

pub(crate) fn source_of(
    alloc: Global,
    module: &Module,
    source: &str,
    exclude: &Patterns,
    partial: &Patterns,
) -> Result<Source, NoMemory>
    ensures { IfOk result (λ text. source_view text
        ≡ source_of exclude.now partial.now (plain_module «module».now) source.now) }
{
    let lines = statements(alloc, module)?;
    let excluded = excluded(alloc, exclude, module, source)?;
    let no_branch = no_branch(alloc, partial, module, source)?;
    let arcs = predict(alloc, module)?;
    Ok(Source {
        lines,
        excluded,
        no_branch,
        arcs,
    })
}
