//! The lines of the report.
ghost use Rattle.std.specs.Prelude.{◌≡◌, ◌++◌, ◌<◌, ◌^◌, ℕ, All, List, map, string_bytes, IfOk};
ghost use Rattle.std.specs.List.{flat_map};
ghost use Rattle.cov_analysis.specs.Analyses.{analysis_view};
ghost use Rattle.cov_analysis.specs.Counts.{IsCounted, numbers_of};
ghost use Rattle.cov_text.specs.Report.{name_width, note, file_row, rows, text_bytes};

use crate::NoMemory;
use crate::columns::{Columns, char_count};
use crate::missing::missing_text;
use cov_analysis::{Analysis, total};
use std::alloc::Global;

/// The report of files in the order given: a header, a line for each, and their total. `arcs` asks
/// for the columns of branches, `missing` for the one that lists what is missing.
pub fn text_report(
    alloc: Global,
    files: &[Analysis],
    arcs: bool,
    missing: bool,
) -> Result<String, NoMemory>
    requires { All (λ file. IsCounted (numbers_of file)) files.now }
    ensures { IfOk result (λ text.
        string_bytes text ≡ text_bytes (map analysis_view files.now) arcs missing) }
{
    let columns = Columns {
        width: name_width(files),
        arcs,
    };
    let header = columns.header(alloc, missing)?;
    let rule = "-".repeat(alloc, header.len())?;
    let rows = rows(alloc, columns, files, missing)?;
    let total = columns.row(alloc, "TOTAL", total(files), "")?;
    format!(in alloc; "{header}\n{rule}\n{rows}{rule}\n{total}\n")
}

/// The places of the column of names.
fn name_width(files: &[Analysis]) -> usize
    ensures { result ≡ name_width (map analysis_view files.now) }
{
    let mut longest = 5;
    for file in files {
        longest = longest.max(char_count(file.path.as_str()));
    }
    longest + 1
}

/// A line for each file.
fn rows(
    alloc: Global,
    columns: Columns,
    files: &[Analysis],
    missing: bool,
) -> Result<String, NoMemory>
    requires { All (λ file. IsCounted (numbers_of file)) files.now }
    ensures { IfOk result (λ text. string_bytes text
        ≡ rows columns.width columns.arcs missing (map analysis_view files.now)) }
{
    let mut text = String::new(alloc);
    for file in files {
        let row = file_row(alloc, columns, file, missing)?;
        text.push_str(row.as_str())?;
    }
    Ok(text)
}

fn file_row(
    alloc: Global,
    columns: Columns,
    file: &Analysis,
    missing: bool,
) -> Result<String, NoMemory>
    requires { IsCounted (numbers_of file.now) }
    ensures { IfOk result (λ text. string_bytes text
        ≡ file_row columns.width columns.arcs missing (analysis_view file.now)) }
{
    let note = note(alloc, file, missing)?;
    let row = columns.row(alloc, file.path.as_str(), file.numbers, note.as_str())?;
    format!(in alloc; "{row}\n")
}

/// What stands in the column `Missing`.
fn note(alloc: Global, file: &Analysis, missing: bool) -> Result<String, NoMemory>
    ensures { IfOk result (λ text. string_bytes text ≡ note missing (analysis_view file.now)) }
{
    if missing {
        missing_text(alloc, file)
    } else {
        Ok(String::new(alloc))
    }
}
