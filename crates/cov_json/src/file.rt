//! The object of a file.
ghost use Rattle.std.specs.Prelude.{◌≡◌, codes, IfOk, OnOk};
ghost use Rattle.serde_json.specs.Data.{put as with_member};
ghost use Rattle.serde_json.specs.View.{view, members_view};
ghost use Rattle.cov_analysis.specs.Analyses.{analysis_view};
ghost use Rattle.cov_analysis.specs.Counts.{IsCounted, numbers_of};
ghost use Rattle.cov_json.specs.Json.{branches, executed_branches, file_value};

use crate::lists::{branches, executed_branches, executed_lines, lines};
use crate::summary::summary;
use cov_analysis::Analysis;
use py_text::NoMemory;
use serde_json::{Map, Value, put};
use std::alloc::Global;

pub(crate) fn file_value(alloc: Global, file: &Analysis, arcs: bool) -> Result<Value, NoMemory>
    requires { IsCounted (numbers_of file.now) }
    ensures { IfOk result (λ value. view value ≡ file_value arcs (analysis_view file.now)) }
{
    let mut members = Map::new(alloc);
    let excluded = lines(alloc, &file.excluded)?;
    put(&mut members, alloc, "excluded_lines", excluded)?;
    let executed = executed_lines(alloc, file)?;
    put(&mut members, alloc, "executed_lines", executed)?;
    let missing = lines(alloc, &file.missing)?;
    put(&mut members, alloc, "missing_lines", missing)?;
    let summary = summary(alloc, file.numbers, arcs)?;
    put(&mut members, alloc, "summary", summary)?;
    if arcs {
        put_branches(&mut members, alloc, file)?;
    }
    Ok(Value::Object(members))
}

/// The lists of branches.
fn put_branches(
    members: &mut Map<String, Value>,
    alloc: Global,
    file: &Analysis,
) -> Result<(), NoMemory>
    ensures { OnOk result (members_view members.new.entries
        ≡ with_member (codes "missing_branches")
        (branches (analysis_view file.now).missing_branches)
        (with_member (codes "executed_branches")
        (branches (executed_branches (analysis_view file.now)))
        (members_view members.old.entries))) }
{
    let executed = executed_branches(alloc, file)?;
    put(members, alloc, "executed_branches", executed)?;
    let missing = branches(alloc, &file.missing_branches)?;
    put(members, alloc, "missing_branches", missing)
}
