//! The lines of a run's arcs.
ghost use Rattle.std.specs.Prelude.{◌≡◌, string_bytes, IfOk};
ghost use Rattle.cov_step.specs.Listing.{arc_line, arc_lines, listing};

use cov_data::Data;
use py_value::NoMemory;
use std::alloc::Global;

/// The arcs of these rows, one line `PATH FROM TO` each, in order of path, from and to.
pub(crate) fn listing(alloc: Global, rows: &Data) -> Result<String, NoMemory>
    ensures { IfOk result (λ text. string_bytes text ≡ listing rows.now) }
{
    let paths = rows.paths()?;
    let mut text = String::new(alloc);
    for path in &paths {
        let arcs = rows.arcs(path.as_str())?;
        let lines = arc_lines(alloc, path.as_str(), &arcs)?;
        text.push_str(lines.as_str())?;
    }
    Ok(text)
}

/// A line for each arc.
fn arc_lines(alloc: Global, path: &str, arcs: &[(i32, i32)]) -> Result<String, NoMemory>
    ensures { IfOk result (λ text. string_bytes text ≡ arc_lines path.now arcs.now) }
{
    let mut text = String::new(alloc);
    for arc in arcs {
        let line = arc_line(alloc, path, arc.0, arc.1)?;
        text.push_str(line.as_str())?;
    }
    Ok(text)
}

fn arc_line(alloc: Global, path: &str, from: i32, to: i32) -> Result<String, NoMemory>
    ensures { IfOk result (λ line. string_bytes line ≡ arc_line path.now (from, to)) }
{
    format!(in alloc; "{path} {from} {to}\n")
}
