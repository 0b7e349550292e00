//! The arcs of `try`.
ghost use Rattle.std.specs.Prelude.{◌≡◌, ◌++◌, OnOk, IfOk};
ghost use Rattle.py_syntax.specs.LastMarks.{clauses_last};
ghost use Rattle.py_syntax.specs.View.{plain_suite, plain_opt_suite, plain_clauses};
ghost use Rattle.cov_predict.specs.Leaving.{targets_of, way_of, IsLeft};
ghost use Rattle.cov_predict.specs.Parts.{ended_last, finally_walk};
ghost use Rattle.cov_predict.specs.Steps.{Finishes, IsPastFinally};
ghost use Rattle.cov_predict.specs.Walk.{in_try, suite_walk, clauses_walk};

use crate::branches::headed;
use crate::first_marks::{first_in, first_of, next_clause};
use crate::jumps::{Jump, Jumps, entering, in_try, united};
use crate::walk::{Rules, entered, optional};
use crate::ways::Ways;
use py_syntax::{Clause, Suite};
use py_text::NoMemory;

/// Adds the arcs of a `try` into its suite, and those of the suite.
#[cycle(walk)]
pub(crate) fn attempt(
    out: &mut Vec<(i32, i32)>,
    rules: Rules,
    jumps: Jumps,
    inner: Jumps,
    line: u32,
    body: &Suite,
    clauses: &[Clause],
    orelse: &Option<Suite>,
) -> Result<Ways, NoMemory>
    ensures arcs { OnOk result (out.new.items ≡ out.old.items
        ++ suite_walk rules.any (targets_of jumps.entry)
        (in_try (plain_clauses clauses.now) (plain_opt_suite orelse.now)
        (targets_of inner.entry)) line (plain_suite body.now)) }
    ensures ways { IfOk result (λ left. IsLeft left (λ w. ended_last rules.any w line
        (plain_suite body.now) (plain_clauses clauses.now) (plain_opt_suite orelse.now))) }
{
    let clause = next_clause(clauses);
    let next = first_in(orelse);
    let empty = first_of(&body.body).is_none();
    let within = in_try(inner, clause, next);
    let left = entered(out, rules, jumps, within, line, body)?;
    Ok(left.past_try(empty, clause.is_some(), next.is_none()))
}

/// Adds the arcs of the clauses of a `try`.
#[cycle(walk)]
pub(crate) fn handlers(
    out: &mut Vec<(i32, i32)>,
    rules: Rules,
    jumps: Jumps,
    clauses: &[Clause],
) -> Result<Ways, NoMemory>
    ensures arcs { OnOk result (out.new.items ≡ out.old.items
        ++ clauses_walk rules.any (targets_of jumps.entry) (plain_clauses clauses.now)) }
    ensures ways { IfOk result (λ left.
        IsLeft left (λ w. clauses_last rules.any w (plain_clauses clauses.now))) }
{
    let mut left = Ways::none();
    let mut passed = 0;
    for clause in clauses {
        passed += 1;
        let after = entering(next_clause(&clauses[passed..]), Jump::Each(&[]));
        let bare = clause.kind.is_none();
        let by = headed(out, rules, jumps, &clause.body, bare, after, false)?;
        left = left.or(by);
    }
    Ok(left)
}

/// Adds the arcs of a `finally`, and tells by which ways the `try` is left, of those that came to
/// its end.
#[cycle(walk)]
pub(crate) fn finish(
    out: &mut Vec<(i32, i32)>,
    rules: Rules,
    jumps: Jumps,
    came: Ways,
    finally: &Option<Suite>,
) -> Result<Ways, NoMemory>
    ensures arcs { OnOk result (out.new.items ≡ out.old.items
        ++ finally_walk rules.any (targets_of jumps.entry) (way_of came)
        (plain_opt_suite finally.now)) }
    ensures ways { IfOk result (Finishes rules.any came (plain_opt_suite finally.now)) }
{
    let ends = united(rules.alloc, came, jumps)?;
    let onward = Jump::Each(&ends);
    let left = optional(out, rules, Jumps { onward, ..jumps }, finally)?;
    Ok(Ways::raising(rules.any).or(past_finally(came, finally, left)))
}

fn past_finally(came: Ways, finally: &Option<Suite>, left: Ways) -> Ways
    ensures { IsPastFinally came (plain_opt_suite finally.now) left result }
{
    match finally {
        None => came,
        Some(suite) => came.through(first_of(&suite.body).is_none(), left),
    }
}
