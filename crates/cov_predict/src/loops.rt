//! The arcs of `while` and `for`.
ghost use Rattle.std.specs.Prelude.{◌≡◌, ◌++◌, pos, OnOk, IfOk};
ghost use Rattle.py_syntax.specs.View.{plain_suite, plain_opt_suite};
ghost use Rattle.cov_predict.specs.Leaving.{targets_of, IsLeft};
ghost use Rattle.cov_predict.specs.Parts.{turns_last, turning_walk, turning_last};
ghost use Rattle.cov_predict.specs.Steps.{Ends, IsEnd};
ghost use Rattle.cov_predict.specs.Walk.{in_loop, suite_walk};

use crate::first_marks::first_in;
use crate::jumps::{Jumps, entering, in_loop};
use crate::lines::end_of;
use crate::simple::unless;
use crate::walk::{Rules, entered};
use crate::ways::Ways;
use py_syntax::Suite;
use py_text::NoMemory;

/// Adds the arcs of a loop up to its `else`. Its test may be one that always holds.
#[cycle(walk)]
pub(crate) fn looped(
    out: &mut Vec<(i32, i32)>,
    rules: Rules,
    jumps: Jumps,
    line: u32,
    constant: bool,
    body: &Suite,
    orelse: &Option<Suite>,
) -> Result<Ways, NoMemory>
    ensures arcs { OnOk result (out.new.items ≡ out.old.items
        ++ turning_walk rules.any constant (targets_of jumps.entry) line
        (plain_suite body.now) (plain_opt_suite orelse.now)) }
    ensures ways { IfOk result (λ left. IsLeft left (λ w. turning_last rules.any constant w line
        (plain_suite body.now) (plain_opt_suite orelse.now))) }
{
    let turns = turns(out, rules, jumps, line, body)?;
    let ends = ends(out, jumps, line, constant, first_in(orelse))?;
    Ok(turns.or(ends))
}

/// Adds the arcs of a header into the suite of its loop, and those of the suite.
#[cycle(walk)]
fn turns(
    out: &mut Vec<(i32, i32)>,
    rules: Rules,
    jumps: Jumps,
    line: u32,
    body: &Suite,
) -> Result<Ways, NoMemory>
    ensures arcs { OnOk result (out.new.items ≡ out.old.items
        ++ suite_walk rules.any (targets_of jumps.entry)
        (in_loop (pos line) (targets_of jumps.entry)) line (plain_suite body.now)) }
    ensures ways { IfOk result (λ left.
        IsLeft left (λ w. turns_last rules.any w line (plain_suite body.now))) }
{
    let within = in_loop(jumps, end_of(line));
    let left = entered(out, rules, jumps, within, line, body)?;
    Ok(Ways::raising(rules.any).or(left.past_loop()))
}

/// Adds the arcs of a header whose loop ends by its test, with the first mark of the `else`.
fn ends(
    out: &mut Vec<(i32, i32)>,
    jumps: Jumps,
    line: u32,
    constant: bool,
    orelse: Option<u32>,
) -> Result<Ways, NoMemory>
    ensures arcs { Ends result constant line orelse (targets_of jumps.entry)
        out.old.items out.new.items }
    ensures ways { IfOk result (IsEnd line constant orelse) }
{
    unless(out, constant, line, entering(orelse, jumps.onward))?;
    Ok(Ways::onward(!constant && orelse.is_none()))
}
