//! What runs took of a source.
ghost use Rattle.std.specs.Prelude.{◌≡◌, IfOk};
ghost use Rattle.cov_exclude.specs.Touched.{IsRising};
ghost use Rattle.cov_analysis.specs.Analyses.{taken_of};
ghost use Rattle.cov_analysis.specs.Views.{taken_view};

use crate::hits::{branch_counts, line_counts};
use cov_data::Data;
use py_text::NoMemory;
use std::alloc::Global;
use std::collections::BTreeMap;

/// Whether arcs were recorded, the executed lines in order, and how often rows go to each line and
/// take each branch.
#[derive(Drop)]
pub(crate) struct Taken {
    pub(crate) arcs: bool,
    pub(crate) executed: Vec<u32>,
    pub(crate) lines: BTreeMap<u32, u32>,
    pub(crate) branches: BTreeMap<(u32, i32), u32>,
}

/// What data have of a path.
pub(crate) fn taken_of(alloc: Global, recorded: &Data, path: &str) -> Result<Taken, NoMemory>
    ensures taken { IfOk result (λ taken. taken_view taken ≡ taken_of recorded.now path.now) }
    ensures rises { IfOk result (λ taken. IsRising taken.executed.items) }
{
    let arcs = recorded.is_arcs();
    let executed = recorded.lines(path)?;
    let rows = recorded.path_rows(path)?;
    let lines = line_counts(alloc, &rows)?;
    let branches = branch_counts(alloc, &rows)?;
    Ok(Taken {
        arcs,
        executed,
        lines,
        branches,
    })
}
