// The lines of data.
ghost use Rattle.std.specs.Prelude.{◌≡◌, ◌++◌, map, IfOk, OnOk};
ghost use Rattle.cov_suite.specs.Rows.{lines_in, path_lines};
ghost use Rattle.cov_suite.specs.Views.{line_of};

use cov_data::{Data, NoMemory};
use std::alloc::Global;

/// The executed lines, by path and then by number, each once.
pub(crate) fn lines_in(alloc: Global, rows: &Data) -> Result<Vec<(String, u32)>, NoMemory>
    ensures { IfOk result (λ lines. map line_of lines.items ≡ lines_in rows.now) }
{
    let mut lines = Vec::new(alloc);
    let paths = rows.paths()?;
    for path in &paths {
        push_lines(alloc, rows, path.as_str(), &mut lines)?;
    }
    Ok(lines)
}

/// Puts the lines of one path behind others.
fn push_lines(
    alloc: Global,
    rows: &Data,
    path: &str,
    lines: &mut Vec<(String, u32)>,
) -> Result<(), NoMemory>
    ensures { OnOk result (map line_of lines.new.items
        ≡ map line_of lines.old.items ++ path_lines rows.now path.now) }
{
    let numbers = rows.lines(path)?;
    for number in &numbers {
        let path = String::from_str(alloc, path)?;
        lines.push((path, *number))?;
    }
    Ok(())
}
