//! Ordered sets of lines and of arcs, as lists.
ghost use Rattle.std.specs.Prelude.{◌≡◌, IfOk, OnOk};
ghost use Rattle.std.specs.List.{fold};
ghost use Rattle.std.specs.Ordering.{nat_cmp};
ghost use Rattle.std.specs.BTreeSet.{insert_key};
ghost use Rattle.cov_data.specs.Rows.{lines_in};

use std::alloc::{AllocError, Global};
use std::collections::BTreeSet;

/// Adds `number` where it is a line.
pub(crate) fn add_line(lines: &mut BTreeSet<u32>, number: i32) -> Result<(), AllocError>
    ensures { OnOk result (lines.new.keys
        ≡ fold (insert_key nat_cmp) lines.old.keys (lines_in number)) }
{
    if number > 0 {
        lines.insert(number as u32)?;
    }
    Ok(())
}

pub(crate) fn listed_lines(alloc: Global, lines: BTreeSet<u32>) -> Result<Vec<u32>, AllocError>
    ensures { IfOk result (λ v. v.items ≡ lines.keys) }
{
    lines.into_iter().collect(alloc)
}

pub(crate) fn listed_arcs(
    alloc: Global,
    arcs: BTreeSet<(i32, i32)>,
) -> Result<Vec<(i32, i32)>, AllocError>
    ensures { IfOk result (λ v. v.items ≡ arcs.keys) }
{
    arcs.into_iter().collect(alloc)
}
