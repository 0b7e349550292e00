//! Making the analysis of a source.
ghost use Rattle.std.specs.Prelude.{◌≡◌, ◌≤◌, IfOk, length, if◌then◌else◌, []};
ghost use Rattle.std.specs.List.{count_by};
ghost use Rattle.py_syntax.specs.Marks.{statement_lines};
ghost use Rattle.py_syntax.specs.View.{plain_module};
ghost use Rattle.cov_exclude.specs.Touched.{IsRising};
ghost use Rattle.cov_analysis.specs.Lines.{is_among, AreLines, IsOfText};
ghost use Rattle.cov_analysis.specs.Branches.{branches_of};
ghost use Rattle.cov_analysis.specs.Analyses.{analysis_view, analysis_of, source_of, taken_of, IsInOrder, IsReportable};
ghost use Rattle.cov_analysis.specs.Views.{source_view, taken_view};

use crate::analysis::Analysis;
use crate::branches::{branches, missing_branches};
use crate::hits::{branch_hits, hits};
use crate::lines::{is_among, without};
use crate::numbers::Numbers;
use crate::source::{Source, source_of};
use crate::taken::{Taken, taken_of};
use cov_data::Data;
use cov_exclude::Patterns;
use cov_predict::ArcSet;
use py_syntax::Module;
use py_text::NoMemory;
use std::alloc::Global;

/// The analysis of the source at a path, whose tree is the module, by what was recorded of the
/// path. Lines that `exclude` matches are excluded, and those that `partial` matches needn't take
/// all of their branches. Of a module that is read from a text of at most 65,535 lines, reports
/// take it.
pub fn analyse(
    alloc: Global,
    module: &Module,
    source: &str,
    exclude: &Patterns,
    partial: &Patterns,
    taken: &Data,
    path: &str,
) -> Result<Analysis, NoMemory>
    ensures analysis { IfOk result (λ analysis. analysis_view analysis
        ≡ analysis_of path.now
        (source_of exclude.now partial.now (plain_module «module».now) source.now)
        (taken_of taken.now path.now)) }
    ensures in_order { IfOk result (λ analysis. IsInOrder (analysis_view analysis)) }
    ensures reportable { IfOk result (λ analysis.
        AreLines (statement_lines (plain_module «module».now))
        → IsReportable (analysis_view analysis)) }
    ensures of_text { IfOk result (λ analysis.
        IsOfText (plain_module «module».now) → IsReportable (analysis_view analysis)) }
{
    let text = source_of(alloc, module, source, exclude, partial)?;
    let recorded = taken_of(alloc, taken, path)?;
    let analysis = analysis(alloc, path, text, &recorded)?;
    Ok(analysis)
}

/// The analysis of a source by what runs took of it.
fn analysis(alloc: Global, path: &str, source: Source, taken: &Taken) -> Result<Analysis, NoMemory>
    requires excluded { IsRising source.excluded.items }
    requires no_branch { IsRising source.no_branch.items }
    requires executed { IsRising taken.now.executed.items }
    ensures { IfOk result (λ analysis. analysis_view analysis
        ≡ analysis_of path.now (source_view source) (taken_view taken.now)) }
{
    let statements = without(alloc, &source.lines, &source.excluded)?;
    let missing = without(alloc, &statements, &taken.executed)?;
    let branches = branches_if(alloc, taken.arcs, &source.arcs, &source.excluded)?;
    let untaken = missing_branches(alloc, &branches, &source.no_branch, &taken.branches)?;
    let hits = hits(alloc, &statements, &taken.executed, &taken.lines)?;
    let branch_hits = branch_hits(alloc, &branches, &source.no_branch, &taken.branches)?;
    let path = String::from_str(alloc, path)?;
    let numbers = counted(
        &statements,
        &missing,
        &source.excluded,
        &branches,
        &untaken,
        &taken.executed,
    );
    Ok(Analysis {
        path,
        statements,
        excluded: source.excluded,
        missing,
        branches,
        missing_branches: untaken,
        hits,
        branch_hits,
        numbers,
    })
}

/// Line data have no branches.
fn branches_if(
    alloc: Global,
    recorded: bool,
    arcs: &ArcSet,
    excluded: &[u32],
) -> Result<Vec<(u32, i32)>, NoMemory>
    requires { IsRising excluded.now }
    ensures { IfOk result (λ branches. branches.items
        ≡ (if recorded then branches_of excluded.now arcs.now else [])) }
{
    if recorded {
        return branches(alloc, arcs, excluded);
    }
    Ok(Vec::new(alloc))
}

fn counted(
    statements: &[u32],
    missing: &[u32],
    excluded: &[u32],
    branches: &[(u32, i32)],
    untaken: &[(u32, i32)],
    executed: &[u32],
) -> Numbers
    requires { IsRising executed.now }
    ensures statements { result.statements ≡ length statements.now }
    ensures missing { result.missing ≡ length missing.now }
    ensures excluded { result.excluded ≡ length excluded.now }
    ensures branches { result.branches ≡ length branches.now }
    ensures missing_branches { result.missing_branches ≡ length untaken.now }
    ensures partial { result.partial
        ≡ count_by (λ branch. is_among executed.now branch.0) untaken.now }
{
    Numbers {
        statements: statements.len() as u64,
        missing: missing.len() as u64,
        excluded: excluded.len() as u64,
        branches: branches.len() as u64,
        missing_branches: untaken.len() as u64,
        partial: partial_branches(untaken, executed),
    }
}

/// How many of the branches leave a line that was executed.
fn partial_branches(branches: &[(u32, i32)], executed: &[u32]) -> u64
    requires { IsRising executed.now }
    ensures { result ≡ count_by (λ branch. is_among executed.now branch.0) branches.now }
{
    let mut partial = 0;
    for branch in branches {
        partial += one_if(is_among(executed, branch.0));
    }
    partial
}

fn one_if(passes: bool) -> u64
    ensures is { result ≡ (if passes then 1 else 0) }
    ensures small { result ≤ 1 }
{
    if passes { 1 } else { 0 }
}
