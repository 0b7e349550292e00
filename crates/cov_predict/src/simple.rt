//! The arcs of simple statements and of headers.
ghost use Rattle.std.specs.Prelude.{◌≡◌, ◌++◌, pos, OnOk, IfOk};
ghost use Rattle.py_syntax.specs.LastMarks.{raising, own_way};
ghost use Rattle.cov_predict.specs.Leaving.{list_of, targets_of, targets_by, plain_way, IsLeft};
ghost use Rattle.cov_predict.specs.Walk.{arcs_to, own_walk, unless};

use crate::jumps::{Jump, Jumps, arcs_to};
use crate::lines::end_of;
use crate::walk::Rules;
use crate::ways::{Way, Ways};
use py_text::NoMemory;

/// Adds the arcs of a mark that leads there, or is left by an exception.
pub(crate) fn own(
    out: &mut Vec<(i32, i32)>,
    rules: Rules,
    jumps: Jumps,
    line: u32,
    to: Jump,
) -> Result<(), NoMemory>
    ensures { OnOk result (out.new.items ≡ out.old.items
        ++ own_walk rules.any (targets_of jumps.entry) (pos line) (list_of to.entry)) }
{
    let line = end_of(line);
    arcs_to(out, line, to)?;
    if !rules.any {
        return Ok(());
    }
    arcs_to(out, line, jumps.raising)
}

/// Adds the arcs of a statement that is left by one way, or by an exception, and tells its ways.
pub(crate) fn leaves(
    out: &mut Vec<(i32, i32)>,
    rules: Rules,
    jumps: Jumps,
    line: u32,
    way: Way,
) -> Result<Ways, NoMemory>
    ensures arcs { OnOk result (out.new.items ≡ out.old.items
        ++ own_walk rules.any (targets_of jumps.entry) (pos line)
        (targets_by (targets_of jumps.entry) (plain_way way))) }
    ensures ways { IfOk result (λ left.
        IsLeft left (λ w. own_way (plain_way way) rules.any w line)) }
{
    own(out, rules, jumps, line, jumps.by(way))?;
    Ok(Ways::own(rules.any, way))
}

/// Adds the arcs of a `raise`, and tells its ways.
pub(crate) fn raises(
    out: &mut Vec<(i32, i32)>,
    rules: Rules,
    jumps: Jumps,
    line: u32,
) -> Result<Ways, NoMemory>
    ensures arcs { OnOk result (out.new.items ≡ out.old.items
        ++ arcs_to (pos line) (list_of jumps.entry.raising)) }
    ensures ways { IfOk result (λ left. IsLeft left (λ w. own_way raising rules.any w line)) }
{
    arcs_to(out, end_of(line), jumps.raising)?;
    Ok(Ways::of_raise())
}

/// Adds the arcs from a line, unless there are none.
pub(crate) fn unless(
    out: &mut Vec<(i32, i32)>,
    none: bool,
    line: u32,
    to: Jump,
) -> Result<(), NoMemory>
    ensures { OnOk result (out.new.items ≡ out.old.items
        ++ unless none (arcs_to (pos line) (list_of to.entry))) }
{
    if none {
        return Ok(());
    }
    arcs_to(out, end_of(line), to)
}
