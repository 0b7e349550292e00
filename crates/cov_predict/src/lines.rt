//! Lines as ends of arcs.
ghost use Rattle.std.specs.Prelude.{◌≡◌, ◌++◌, ◌∷◌, [], pos, OnOk, IfOk};

use py_text::NoMemory;
use std::alloc::AllocError;

/// A line as an end of an arc.
pub(crate) fn end_of(line: u32) -> i64
    ensures { result ≡ pos line }
{
    i64::from(line)
}

/// Adds an arc.
pub(crate) fn add_arc(out: &mut Vec<(i32, i32)>, from: i64, to: i64) -> Result<(), NoMemory>
    ensures { OnOk result (out.new.items ≡ out.old.items ++ (from, to) ∷ []) }
{
    let from = kept(from)?;
    let to = kept(to)?;
    out.push((from, to))?;
    Ok(())
}

/// An end as a set of arcs keeps it. It has no room for a line past `i32::MAX`, which no text has.
fn kept(end: i64) -> Result<i32, NoMemory>
    ensures { IfOk result (λ kept. kept ≡ end) }
{
    match i32::try_from(end) {
        Ok(kept) => Ok(kept),
        Err(_) => Err(AllocError),
    }
}
