//! Lists of lines.
ghost use Rattle.std.specs.Prelude.{◌≡◌, ◌++◌, ◌∷◌, [], if◌then◌else◌, IfOk, OnOk};
ghost use Rattle.cov_exclude.specs.Touched.{IsRising};
ghost use Rattle.cov_analysis.specs.Lines.{is_among, without};
ghost use Rattle.cov_analysis.specs.Lookups.{line_at};

use py_text::NoMemory;
use std::alloc::Global;

/// Whether a line is one of these. Takes time of the logarithm of their number.
pub(crate) fn is_among(lines: &[u32], line: u32) -> bool
    requires { IsRising lines.now }
    ensures { result ≡ is_among lines.now line }
{
    lines.binary_search(&line).is_ok()
}

/// The lines that are none of the others.
pub(crate) fn without(alloc: Global, lines: &[u32], others: &[u32]) -> Result<Vec<u32>, NoMemory>
    requires { IsRising others.now }
    ensures { IfOk result (λ kept. kept.items ≡ without lines.now others.now) }
{
    let mut kept = Vec::new(alloc);
    for line in lines {
        push_if(&mut kept, !is_among(others, *line), *line)?;
    }
    Ok(kept)
}

fn push_if(lines: &mut Vec<u32>, passes: bool, line: u32) -> Result<(), NoMemory>
    ensures { OnOk result (lines.new.items
        ≡ lines.old.items ++ (if passes then line ∷ [] else [])) }
{
    if passes {
        lines.push(line)?;
    }
    Ok(())
}

/// The line that a number of a row or an end of an arc is: a negative one is the outside.
pub(crate) fn line_of(end: i32) -> Option<u32>
    ensures { result ≡ line_at end }
{
    if end < 0 {
        return None;
    }
    Some(end as u32)
}
