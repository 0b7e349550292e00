//! The arcs of headers with suites that may not be taken: tests and cases.
ghost use Rattle.std.specs.Prelude.{◌≡◌, ◌++◌, OnOk, IfOk};
ghost use Rattle.py_syntax.specs.LastMarks.{cases_last};
ghost use Rattle.py_syntax.specs.View.{plain_suite, plain_arms, plain_cases};
ghost use Rattle.cov_predict.specs.Leaving.{list_of, targets_of, IsLeft};
ghost use Rattle.cov_predict.specs.Parts.{headed_walk, headed_last, match_walk, match_last};
ghost use Rattle.cov_predict.specs.Steps.{AddsArms, LeavesArms};
ghost use Rattle.cov_predict.specs.Walk.{cases_walk};

use crate::constants::is_sure;
use crate::first_marks::{first_of, next_case, next_test, or_else};
use crate::jumps::{Jump, Jumps, entering};
use crate::simple::{own, unless};
use crate::walk::{Rules, entered};
use crate::ways::{Ways, both, either};
use py_syntax::{Arm, Case, Suite};
use py_text::NoMemory;

/// Adds the arcs of tests with their suites, with the mark that comes first after them.
#[cycle(walk)]
pub(crate) fn tests(
    out: &mut Vec<(i32, i32)>,
    rules: Rules,
    jumps: Jumps,
    arms: &[Arm],
    orelse: Option<u32>,
) -> Result<Ways, NoMemory>
    ensures arcs { AddsArms result rules.any (targets_of jumps.entry) (plain_arms arms.now) orelse
        out.old.items out.new.items }
    ensures ways { IfOk result (LeavesArms rules.any (plain_arms arms.now) orelse) }
{
    let mut left = Ways::none();
    let mut passed = 0;
    for arm in arms {
        passed += 1;
        let next = or_else(next_test(&arms[passed..]), orelse);
        let after = entering(next, jumps.onward);
        let by = headed(out, rules, jumps, &arm.body, false, after, next.is_none())?;
        left = left.or(by);
    }
    Ok(left)
}

/// Adds the arcs of a `match`.
#[cycle(walk)]
pub(crate) fn matched(
    out: &mut Vec<(i32, i32)>,
    rules: Rules,
    jumps: Jumps,
    line: u32,
    cases: &[Case],
) -> Result<Ways, NoMemory>
    ensures arcs { OnOk result (out.new.items ≡ out.old.items
        ++ match_walk rules.any (targets_of jumps.entry) line (plain_cases cases.now)) }
    ensures ways { IfOk result (λ left.
        IsLeft left (λ w. match_last rules.any w line (plain_cases cases.now))) }
{
    let next = next_case(cases);
    own(out, rules, jumps, line, entering(next, jumps.onward))?;
    let taken = alternatives(out, rules, jumps, cases)?;
    Ok(Ways::raising(rules.any).or(Ways::onward(next.is_none()).or(taken)))
}

#[cycle(walk)]
fn alternatives(
    out: &mut Vec<(i32, i32)>,
    rules: Rules,
    jumps: Jumps,
    cases: &[Case],
) -> Result<Ways, NoMemory>
    ensures arcs { OnOk result (out.new.items ≡ out.old.items
        ++ cases_walk rules.any (targets_of jumps.entry) (plain_cases cases.now)) }
    ensures ways { IfOk result (λ left.
        IsLeft left (λ w. cases_last rules.any w (plain_cases cases.now))) }
{
    let mut left = Ways::none();
    let mut passed = 0;
    for case in cases {
        passed += 1;
        let next = next_case(&cases[passed..]);
        let sure = is_sure(&case.pattern, &case.guard);
        let after = entering(next, jumps.onward);
        let leaves = both(!sure, next.is_none());
        let by = headed(out, rules, jumps, &case.body, sure, after, leaves)?;
        left = left.or(by);
    }
    Ok(left)
}

/// Adds the arcs of a header with its suite, past which it leads unless it is sure. By that the
/// statement may be left.
#[cycle(walk)]
pub(crate) fn headed(
    out: &mut Vec<(i32, i32)>,
    rules: Rules,
    jumps: Jumps,
    suite: &Suite,
    sure: bool,
    after: Jump,
    leaves: bool,
) -> Result<Ways, NoMemory>
    ensures arcs { OnOk result (out.new.items ≡ out.old.items
        ++ headed_walk rules.any (targets_of jumps.entry) (plain_suite suite.now) sure
        (list_of after.entry)) }
    ensures ways { IfOk result (λ left.
        IsLeft left (λ w. headed_last rules.any w (plain_suite suite.now) leaves)) }
{
    let empty = first_of(&suite.body).is_none();
    let taken = entered(out, rules, jumps, jumps, suite.first, suite)?;
    unless(out, sure, suite.first, after)?;
    let ends = Ways::onward(either(empty, leaves));
    Ok(Ways::raising(rules.any).or(ends.or(taken)))
}
