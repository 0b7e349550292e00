//! A report in LCOV's format.
ghost use Rattle.std.specs.Prelude.{◌≡◌, [], length, map, if◌then◌else◌, IfOk, string_bytes};
ghost use Rattle.std.specs.List.{All, flat_map, zip};
ghost use Rattle.cov_analysis.specs.Analyses.{IsReportable, analysis_view};
ghost use Rattle.cov_lcov.specs.Lcov.{branch_part, file_bytes, lcov_bytes, statement_row};

use crate::branches::branch_part;
use cov_analysis::Analysis;
use py_text::NoMemory;
use std::alloc::Global;

/// A record for each file, in the order in which they are given, with rows on branches where `arcs`
/// says that arcs were recorded. Lines count from 1.
pub fn lcov_report(alloc: Global, files: &[Analysis], arcs: bool) -> Result<String, NoMemory>
    requires { All IsReportable (map analysis_view files.now) }
    ensures { IfOk result (λ text.
        string_bytes text ≡ lcov_bytes (map analysis_view files.now) arcs) }
{
    let mut text = String::new(alloc);
    for file in files {
        let record = record(alloc, file, arcs)?;
        text.push_str(record.as_str())?;
    }
    Ok(text)
}

/// The record of a file.
fn record(alloc: Global, file: &Analysis, arcs: bool) -> Result<String, NoMemory>
    requires { IsReportable (analysis_view file.now) }
    ensures { IfOk result (λ text.
        string_bytes text ≡ file_bytes arcs (analysis_view file.now)) }
{
    let path = &file.path;
    let statements = statement_rows(alloc, &file.statements, &file.hits)?;
    let found = file.numbers.statements;
    let hit = found - file.numbers.missing;
    let branches = branch_part_if(alloc, arcs, file)?;
    format!(in alloc; "SF:{path}\n{statements}LF:{found}\nLH:{hit}\n{branches}end_of_record\n")
}

/// Line data tell nothing of branches.
fn branch_part_if(alloc: Global, arcs: bool, file: &Analysis) -> Result<String, NoMemory>
    requires { IsReportable (analysis_view file.now) }
    ensures { IfOk result (λ text. string_bytes text
        ≡ (if arcs then branch_part (analysis_view file.now) else [])) }
{
    if arcs {
        return branch_part(alloc, file);
    }
    Ok(String::new(alloc))
}

fn statement_rows(alloc: Global, lines: &[u32], hits: &[u32]) -> Result<String, NoMemory>
    requires { length hits.now ≡ length lines.now }
    ensures { IfOk result (λ text.
        string_bytes text ≡ flat_map statement_row (zip lines.now hits.now)) }
{
    let mut text = String::new(alloc);
    for at in 0..lines.len() {
        let row = statement_row(alloc, lines[at], hits[at])?;
        text.push_str(row.as_str())?;
    }
    Ok(text)
}

fn statement_row(alloc: Global, line: u32, hits: u32) -> Result<String, NoMemory>
    ensures { IfOk result (λ text. string_bytes text ≡ statement_row (line, hits)) }
{
    format!(in alloc; "DA:{line},{hits}\n")
}
