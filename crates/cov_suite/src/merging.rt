// Two lists of lines as one.
ghost use Rattle.std.specs.Prelude.{◌≡◌, [], ◌∷◌, ◌++◌, map, IfOk, OnOk};
ghost use Rattle.cov_suite.specs.Merging.{merged};
ghost use Rattle.cov_suite.specs.Views.{line_of};

use cov_data::NoMemory;
use std::alloc::Global;
use std::cmp::Ordering;

/// Puts a copy of a line after others.
fn push_line(line: &(String, u32), lines: &mut Vec<(String, u32)>) -> Result<(), NoMemory>
    ensures { OnOk result (map line_of lines.new.items
        ≡ map line_of lines.old.items ++ line_of line.now ∷ []) }
{
    lines.push((line.0.clone()?, line.1))?;
    Ok(())
}

/// Puts copies of lines after others.
fn push_all(more: &[(String, u32)], lines: &mut Vec<(String, u32)>) -> Result<(), NoMemory>
    ensures { OnOk result (map line_of lines.new.items
        ≡ map line_of lines.old.items ++ map line_of more.now) }
{
    for line in more {
        push_line(line, lines)?;
    }
    Ok(())
}

/// The lines of two lists: at each step the first of the two that come next, and one for both where
/// they are the same. Where both lists rise, by path and then by number, so does this one, with
/// each line once.
pub(crate) fn merged(
    alloc: Global,
    left: &[(String, u32)],
    right: &[(String, u32)],
) -> Result<Vec<(String, u32)>, NoMemory>
    ensures { IfOk result (λ lines. map line_of lines.items
        ≡ merged (map line_of left.now) (map line_of right.now)) }
{
    let mut lines = Vec::new(alloc);
    let mut i = 0;
    let mut j = 0;
    while i < left.len() && j < right.len() {
        match left[i].cmp(&right[j]) {
            Ordering::Less => {
                push_line(&left[i], &mut lines)?;
                i += 1;
            }
            Ordering::Equal => {
                push_line(&left[i], &mut lines)?;
                i += 1;
                j += 1;
            }
            Ordering::Greater => {
                push_line(&right[j], &mut lines)?;
                j += 1;
            }
        }
    }
    push_all(&left[i..], &mut lines)?;
    push_all(&right[j..], &mut lines)?;
    Ok(lines)
}
