//! The report of files.
ghost use Rattle.std.specs.Prelude.{◌≡◌, All, map, string_bytes, IfOk, OnOk};
ghost use Rattle.serde_json.specs.View.{view, members_view};
ghost use Rattle.cov_analysis.specs.Analyses.{analysis_view};
ghost use Rattle.cov_analysis.specs.Counts.{IsCounted, numbers_of};
ghost use Rattle.cov_json.specs.Json.{meta, with_file, files_value, report, json_bytes};

use crate::file::file_value;
use crate::summary::summary;
use cov_analysis::{Analysis, total};
use py_text::NoMemory;
use serde_json::{Map, Value, json, put};
use std::alloc::Global;

/// The report of files as one JSON object with no blank and no line end. `arcs` says that arcs were
/// recorded: for data of lines no key speaks of branches, except `branch_coverage`.
///
/// Keys come in the order of their bytes, so files by their paths. Of two files of one path the
/// later stands, and both count in the totals. Lines count from 1.
pub fn json_report(alloc: Global, files: &[Analysis], arcs: bool) -> Result<String, NoMemory>
    requires { All (λ file. IsCounted (numbers_of file)) files.now }
    ensures { IfOk result (λ text.
        string_bytes text ≡ json_bytes (map analysis_view files.now) arcs) }
{
    let value = report(alloc, files, arcs)?;
    let text = value.to_string(alloc);
    drop(value);
    text
}

fn report(alloc: Global, files: &[Analysis], arcs: bool) -> Result<Value, NoMemory>
    requires { All (λ file. IsCounted (numbers_of file)) files.now }
    ensures { IfOk result (λ value. view value ≡ report (map analysis_view files.now) arcs) }
{
    let mut members = Map::new(alloc);
    let meta = meta(alloc, arcs)?;
    put(&mut members, alloc, "meta", meta)?;
    let totals = summary(alloc, total(files), arcs)?;
    put(&mut members, alloc, "totals", totals)?;
    let all = files_value(alloc, files, arcs)?;
    put(&mut members, alloc, "files", all)?;
    Ok(Value::Object(members))
}

fn meta(alloc: Global, arcs: bool) -> Result<Value, NoMemory>
    ensures { IfOk result (λ value. view value ≡ meta arcs) }
{
    json!(in alloc; {"branch_coverage": arcs})
}

/// The files by their paths.
fn files_value(alloc: Global, files: &[Analysis], arcs: bool) -> Result<Value, NoMemory>
    requires { All (λ file. IsCounted (numbers_of file)) files.now }
    ensures { IfOk result (λ value.
        view value ≡ files_value arcs (map analysis_view files.now)) }
{
    let mut members = Map::new(alloc);
    for file in files {
        put_file(&mut members, alloc, file, arcs)?;
    }
    Ok(Value::Object(members))
}

fn put_file(
    members: &mut Map<String, Value>,
    alloc: Global,
    file: &Analysis,
    arcs: bool,
) -> Result<(), NoMemory>
    requires { IsCounted (numbers_of file.now) }
    ensures { OnOk result (members_view members.new.entries
        ≡ with_file arcs (members_view members.old.entries) (analysis_view file.now)) }
{
    let value = file_value(alloc, file, arcs)?;
    put(members, alloc, file.path.as_str(), value)
}
