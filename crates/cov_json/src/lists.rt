//! Lists of lines and of branches.
ghost use Rattle.std.specs.Prelude.{◌≡◌, not, filter, IfOk};
ghost use Rattle.std.specs.BTreeSet.{contains};
ghost use Rattle.std.specs.Ordering.{nat_cmp};
ghost use Rattle.serde_json.specs.View.{view};
ghost use Rattle.cov_analysis.specs.Analyses.{analysis_view};
ghost use Rattle.cov_analysis.specs.Branches.{branch_cmp};
ghost use Rattle.cov_json.specs.Json.{lines, branch, branches, executed_lines, executed_branches};

use cov_analysis::{Analysis, branch_set, line_set};
use py_text::NoMemory;
use serde_json::{Value, json};
use std::alloc::Global;
use std::collections::BTreeSet;

pub(crate) fn lines(alloc: Global, all: &[u32]) -> Result<Value, NoMemory>
    ensures { IfOk result (λ value. view value ≡ lines all.now) }
{
    let mut values = Vec::new(alloc);
    for line in all {
        values.push(Value::from(*line))?;
    }
    Ok(Value::Array(values))
}

/// The statements that aren't missing.
pub(crate) fn executed_lines(alloc: Global, file: &Analysis) -> Result<Value, NoMemory>
    ensures { IfOk result (λ value.
        view value ≡ lines (executed_lines (analysis_view file.now))) }
{
    let missing = line_set(alloc, &file.missing)?;
    let executed = lines_outside(alloc, &file.statements, &missing)?;
    lines(alloc, &executed)
}

/// The lines that a set doesn't have.
fn lines_outside(alloc: Global, all: &[u32], set: &BTreeSet<u32>) -> Result<Vec<u32>, NoMemory>
    ensures { IfOk result (λ kept.
        kept.items ≡ filter (λ line. not (contains nat_cmp set.now line)) all.now) }
{
    let mut kept = Vec::new(alloc);
    for line in all {
        if !set.contains(line) {
            kept.push(*line)?;
        }
    }
    Ok(kept)
}

pub(crate) fn branches(alloc: Global, all: &[(u32, i32)]) -> Result<Value, NoMemory>
    ensures { IfOk result (λ value. view value ≡ branches all.now) }
{
    let mut values = Vec::new(alloc);
    for one in all {
        let value = branch(alloc, *one)?;
        values.push(value)?;
    }
    Ok(Value::Array(values))
}

fn branch(alloc: Global, arc: (u32, i32)) -> Result<Value, NoMemory>
    ensures { IfOk result (λ value. view value ≡ branch arc) }
{
    json!(in alloc; [arc.0, arc.1])
}

/// The branches that aren't missing.
pub(crate) fn executed_branches(alloc: Global, file: &Analysis) -> Result<Value, NoMemory>
    ensures { IfOk result (λ value.
        view value ≡ branches (executed_branches (analysis_view file.now))) }
{
    let missing = branch_set(alloc, &file.missing_branches)?;
    let executed = branches_outside(alloc, &file.branches, &missing)?;
    branches(alloc, &executed)
}

/// The branches that a set doesn't have.
fn branches_outside(
    alloc: Global,
    all: &[(u32, i32)],
    set: &BTreeSet<(u32, i32)>,
) -> Result<Vec<(u32, i32)>, NoMemory>
    ensures { IfOk result (λ kept.
        kept.items ≡ filter (λ one. not (contains branch_cmp set.now one)) all.now) }
{
    let mut kept = Vec::new(alloc);
    for one in all {
        if !set.contains(one) {
            kept.push(*one)?;
        }
    }
    Ok(kept)
}
