//! The changed lines of a program, as a set.
ghost use Rattle.std.specs.Prelude.{◌≡◌, ◌&&◌, ◌||◌, nat_eq, bytes_eq, IfOk, OnOk};
ghost use Rattle.std.specs.List.{list_any};
ghost use Rattle.cov_select.specs.Selected.{has_line, is_changed};
ghost use Rattle.cov_suite.specs.Rows.{Line};

use py_text::NoMemory;
use std::alloc::Global;
use std::collections::HashSet;

/// Lines with their paths, each once.
pub(crate) type LineSet<'a> = HashSet<(&'a str, u32)>;

/// The lines of all paths.
pub(crate) fn line_set<'a>(
    alloc: Global,
    changed: &'a [(String, Vec<u32>)],
) -> Result<LineSet<'a>, NoMemory>
    ensures { IfOk result (λ set. (line : Line) → has_line set line ≡ is_changed changed.now line) }
{
    let mut set = HashSet::new(alloc);
    for lines in changed {
        add_lines(&mut set, lines.0.as_str(), &lines.1)?;
    }
    Ok(set)
}

/// Adds the lines of one path.
fn add_lines<'a>(set: &mut LineSet<'a>, path: &'a str, lines: &[u32]) -> Result<(), NoMemory>
    ensures { OnOk result ((line : Line) → has_line set.new line
        ≡ (has_line set.old line
        || (bytes_eq line.0 path.now && list_any (nat_eq line.1) lines.now))) }
{
    for line in lines {
        add_line(set, path, *line)?;
    }
    Ok(())
}

/// Adds a line of a path.
fn add_line<'a>(set: &mut LineSet<'a>, path: &'a str, line: u32) -> Result<(), NoMemory>
    ensures { OnOk result ((l : Line) → has_line set.new l
        ≡ (has_line set.old l || (bytes_eq l.0 path.now && nat_eq l.1 line))) }
{
    set.insert((path, line))?;
    Ok(())
}

/// Whether a line of a path is among them.
pub(crate) fn has(set: &LineSet, path: &str, line: u32) -> bool
    ensures { result ≡ has_line set.now (path.now, line) }
{
    set.contains(&(path, line))
}
