//! The numbers of a file, or of all files.
ghost use Rattle.std.specs.Prelude.{◌≡◌, ◌-◌, codes, IfOk, OnOk};
ghost use Rattle.serde_json.specs.Data.{put as with_member};
ghost use Rattle.serde_json.specs.View.{view, members_view};
ghost use Rattle.cov_analysis.specs.Counts.{IsCounted};
ghost use Rattle.cov_json.specs.Json.{whole, summary};

use cov_analysis::Numbers;
use py_text::NoMemory;
use serde_json::{Map, Value, put};
use std::alloc::Global;

pub(crate) fn summary(alloc: Global, numbers: Numbers, arcs: bool) -> Result<Value, NoMemory>
    requires { IsCounted numbers }
    ensures { IfOk result (λ value. view value ≡ summary arcs numbers) }
{
    let mut members = Map::new(alloc);
    let covered = numbers.statements - numbers.missing;
    put(&mut members, alloc, "covered_lines", Value::from(covered))?;
    put(
        &mut members,
        alloc,
        "excluded_lines",
        Value::from(numbers.excluded),
    )?;
    put(
        &mut members,
        alloc,
        "missing_lines",
        Value::from(numbers.missing),
    )?;
    put(
        &mut members,
        alloc,
        "num_statements",
        Value::from(numbers.statements),
    )?;
    let percent = numbers.percent();
    let text = format!(in alloc; "{percent}")?;
    put(
        &mut members,
        alloc,
        "percent_covered_display",
        Value::from(text),
    )?;
    if arcs {
        put_branches(&mut members, alloc, numbers)?;
    }
    Ok(Value::Object(members))
}

/// The numbers of branches.
fn put_branches(
    members: &mut Map<String, Value>,
    alloc: Global,
    numbers: Numbers,
) -> Result<(), NoMemory>
    requires { IsCounted numbers }
    ensures { OnOk result (members_view members.new.entries
        ≡ with_member (codes "num_partial_branches") (whole numbers.partial)
        (with_member (codes "num_branches") (whole numbers.branches)
        (with_member (codes "missing_branches") (whole numbers.missing_branches)
        (with_member (codes "covered_branches")
        (whole (numbers.branches - numbers.missing_branches))
        (members_view members.old.entries))))) }
{
    let covered = numbers.branches - numbers.missing_branches;
    put(members, alloc, "covered_branches", Value::from(covered))?;
    put(
        members,
        alloc,
        "missing_branches",
        Value::from(numbers.missing_branches),
    )?;
    put(
        members,
        alloc,
        "num_branches",
        Value::from(numbers.branches),
    )?;
    put(
        members,
        alloc,
        "num_partial_branches",
        Value::from(numbers.partial),
    )
}
