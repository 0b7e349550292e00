//! The lines of a selection: one for each name, and then that of how many they are.
ghost use Rattle.std.specs.Prelude.{◌≡◌, ◌++◌, map, codes, decimal, string_bytes, IfOk};
ghost use Rattle.std.specs.List.{flat_map};
ghost use Rattle.cov_step.specs.Selecting.{name_line, selection_lines};
ghost use Rattle.cov_selects.specs.Views.{name_view, selection_view};

use crate::choosing::Selection;
use py_text::NoMemory;
use std::alloc::Global;

/// A line for each name, and then that of how many they are, of how many tests.
pub(crate) fn selection_lines(alloc: Global, selection: &Selection) -> Result<String, NoMemory>
    ensures { IfOk result (λ text. string_bytes text
        ≡ selection_lines (selection_view selection.now)) }
{
    let mut text = name_lines(alloc, &selection.names)?;
    let last = counts_line(alloc, selection.names.len(), selection.count)?;
    text.push_str(last.as_str())?;
    Ok(text)
}

fn name_lines(alloc: Global, names: &[String]) -> Result<String, NoMemory>
    ensures { IfOk result (λ text. string_bytes text
        ≡ flat_map name_line (map name_view names.now)) }
{
    let mut text = String::new(alloc);
    for name in names {
        let line = line_of(alloc, name.as_str())?;
        text.push_str(line.as_str())?;
    }
    Ok(text)
}

fn line_of(alloc: Global, name: &str) -> Result<String, NoMemory>
    ensures { IfOk result (λ line. string_bytes line ≡ name.now ++ codes "\n") }
{
    format!(in alloc; "{name}\n")
}

fn counts_line(alloc: Global, selected: usize, count: usize) -> Result<String, NoMemory>
    ensures { IfOk result (λ line. string_bytes line
        ≡ decimal selected ++ (codes " of " ++ (decimal count ++ codes " selected\n"))) }
{
    format!(in alloc; "{selected} of {count} selected\n")
}
