// The places that the code of a compound statement jumps to, and the ways out of its suites.

ghost use Rattle.std.specs.Prelude.{◌≡◌, ◌+◌, true, IfOk};
ghost use Rattle.std.specs.Option.{option_map};
ghost use Rattle.py_syntax.specs.View.{plain_expr, plain_pattern, plain_suite, plain_opt_suite, plain_arms, plain_clauses, plain_cases};
ghost use Rattle.py_compile_expr.specs.Expressions.{expr_size};
ghost use Rattle.py_compile_body.specs.Parts.{suite_size, while_back, for_again, for_back, try_begin, try_end, finally_ways, tried_ways, clause_begin, clause_next, clause_ways, case_begin};
ghost use Rattle.py_compile.specs.Statements.{opt_size, arms_size, cases_size};
ghost use Rattle.py_compile.specs.Ways.{in_loop, in_hand, under};
ghost use Rattle.py_compile_body.specs.WaysView.{plain_ways};

use crate::suite_sizes::{
    after, arms_size, case_head_size, cases_size, caught_size, handlers_size, opt_size, suite_size,
};
use crate::ways::{Ways, in_finally, in_hand, in_loop, in_try, under};
use py_compile_expr::{expr_size, sum, target_size};
use py_syntax::{Arm, Case, Clause, Expr, Pattern, Suite};
use py_text::{NoMemory, Text};

/// Of a loop: where a further turn begins, what follows the last turn, and the ways out of its
/// suite.
#[derive(Clone, Copy)]
pub(crate) struct LoopPlaces {
    pub again: u32,
    pub rest: u32,
    pub inside: Ways,
}

pub(crate) fn while_places(
    ways: Ways,
    at: u32,
    test: &Expr,
    body: &Suite,
    orelse: &Option<Suite>,
) -> Result<LoopPlaces, NoMemory>
    ensures again { IfOk result (λ r. r.again ≡ at + 2) }
    ensures rest { IfOk result (λ r. r.rest
        ≡ while_back (in_hand (plain_ways ways)) at (plain_expr test.now)
        (plain_suite body.now) + 1) }
    ensures inside { IfOk result (λ r. plain_ways r.inside ≡ in_loop (plain_ways ways) 0
        (r.rest + opt_size (in_hand (plain_ways ways)) (plain_opt_suite orelse.now))
        (while_back (in_hand (plain_ways ways)) at (plain_expr test.now) (plain_suite body.now))) }
{
    let handled = in_hand(ways);
    let again = sum(at, 2)?;
    let begin = after(again, expr_size(test), 2)?;
    let back = after(begin, suite_size(handled, body), 0)?;
    let rest = sum(back, 1)?;
    let end = after(rest, opt_size(handled, orelse), 0)?;
    Ok(LoopPlaces {
        again,
        rest,
        inside: in_loop(ways, 0, end, back),
    })
}

pub(crate) fn for_places(
    ways: Ways,
    at: u32,
    items: &Expr,
    target: &Expr,
    body: &Suite,
    orelse: &Option<Suite>,
) -> Result<LoopPlaces, NoMemory>
    ensures again { IfOk result (λ r. r.again ≡ for_again at (plain_expr items.now)) }
    ensures rest { IfOk result (λ r. r.rest
        ≡ for_back (in_hand (plain_ways ways)) at
        (plain_expr target.now) (plain_expr items.now) (plain_suite body.now) + 1) }
    ensures inside { IfOk result (λ r. plain_ways r.inside ≡ in_loop (under (plain_ways ways)) 1
        (r.rest + opt_size (in_hand (plain_ways ways)) (plain_opt_suite orelse.now))
        (for_back (in_hand (plain_ways ways)) at
        (plain_expr target.now) (plain_expr items.now) (plain_suite body.now))) }
{
    let handled = in_hand(ways);
    let again = after(at, expr_size(items), 3)?;
    let begin = after(again, target_size(target), 2)?;
    let back = after(begin, suite_size(handled, body), 0)?;
    let rest = sum(back, 1)?;
    let end = after(rest, opt_size(handled, orelse), 0)?;
    let lower = under(ways)?;
    Ok(LoopPlaces {
        again,
        rest,
        inside: in_loop(lower, 1, end, back),
    })
}

/// Of a `try`: the ways out of its body and of its other suites, where its `else` begins, and where
/// it goes on in front of its `finally`.
#[derive(Clone, Copy)]
pub(crate) struct TryPlaces {
    pub tried: Ways,
    pub inside: Ways,
    pub normal: u32,
    pub end: u32,
}

pub(crate) fn try_places(
    ways: Ways,
    at: u32,
    body: &Suite,
    clauses: &[Clause],
    orelse: &Option<Suite>,
    finally: &Option<Suite>,
) -> Result<TryPlaces, NoMemory>
    ensures normal { IfOk result (λ r.
        r.normal ≡ at + 1 + suite_size (in_hand (plain_ways ways)) (plain_suite body.now)) }
    ensures end { IfOk result (λ r. r.end
        ≡ try_end (in_hand (plain_ways ways)) at (plain_suite body.now)
        (plain_clauses clauses.now) (plain_opt_suite orelse.now)) }
    ensures inside { IfOk result (λ r. plain_ways r.inside
        ≡ finally_ways (plain_opt_suite finally.now) (plain_ways ways) (r.end + 1)) }
    ensures tried { IfOk result (λ r. plain_ways r.tried
        ≡ tried_ways (plain_clauses clauses.now) (plain_ways r.inside)
        (try_begin (in_hand (plain_ways ways)) at
        (plain_suite body.now) (plain_opt_suite orelse.now))) }
{
    let handled = in_hand(ways);
    let normal = after(at, suite_size(handled, body), 1)?;
    let jump = after(normal, opt_size(handled, orelse), 0)?;
    let begin = sum(jump, 1)?;
    let end = after(jump, handlers_size(handled, clauses), 0)?;
    let suite = sum(end, 1)?;
    let inside = finally_ways(finally, ways, suite);
    let tried = tried_ways(clauses, inside, begin);
    Ok(TryPlaces {
        tried,
        inside,
        normal,
        end,
    })
}

/// In front of a `finally`, if there is one, whose suite begins at the place.
fn finally_ways(finally: &Option<Suite>, ways: Ways, to: u32) -> Ways
    ensures { plain_ways result ≡ finally_ways (plain_opt_suite finally.now) (plain_ways ways) to }
{
    match finally {
        None => ways,
        Some(_) => in_finally(ways, to),
    }
}

/// In front of clauses, if there are some, which begin at the place.
fn tried_ways(clauses: &[Clause], ways: Ways, to: u32) -> Ways
    ensures { plain_ways result ≡ tried_ways (plain_clauses clauses.now) (plain_ways ways) to }
{
    if clauses.is_empty() {
        ways
    } else {
        in_try(ways, to)
    }
}

/// Of a clause: where the next one begins, and the ways out of its suite.
#[derive(Clone, Copy)]
pub(crate) struct ClausePlaces {
    pub next: u32,
    pub inside: Ways,
}

/// `inside` are the ways out where the exception stands on top.
pub(crate) fn clause_places(
    inside: Ways,
    at: u32,
    kind: &Option<Expr>,
    name: &Option<Text>,
    body: &Suite,
) -> Result<ClausePlaces, NoMemory>
    ensures next { IfOk result (λ r.
        r.next ≡ clause_next at (option_map plain_expr kind.now) name.now (plain_suite body.now)) }
    ensures inside { IfOk result (λ r. plain_ways r.inside
        ≡ clause_ways name.now (plain_ways inside)
        (clause_begin at (option_map plain_expr kind.now) name.now
        + suite_size true (plain_suite body.now) + 1)) }
{
    let first = after(at, caught_size(kind), 1)?;
    match name {
        None => {
            let next = after(first, suite_size(true, body), 2)?;
            Ok(ClausePlaces { next, inside })
        }
        Some(_) => {
            let release = after(first, suite_size(true, body), 3)?;
            let next = sum(release, 7)?;
            Ok(ClausePlaces {
                next,
                inside: in_finally(inside, release),
            })
        }
    }
}

/// Where an `if` ends.
pub(crate) fn if_end(
    handled: bool,
    at: u32,
    arms: &[Arm],
    orelse: &Option<Suite>,
) -> Result<u32, NoMemory>
    ensures { IfOk result (λ n.
        n ≡ at + arms_size handled (plain_arms arms.now)
        + opt_size handled (plain_opt_suite orelse.now)) }
{
    let rest = after(at, arms_size(handled, arms), 0)?;
    after(rest, opt_size(handled, orelse), 0)
}

/// Where the test after this one begins.
pub(crate) fn arm_next(handled: bool, at: u32, test: &Expr, body: &Suite) -> Result<u32, NoMemory>
    ensures { IfOk result (λ n.
        n ≡ at + 1 + expr_size (plain_expr test.now) + 1
        + suite_size handled (plain_suite body.now) + 1) }
{
    let begin = after(at, expr_size(test), 2)?;
    after(begin, suite_size(handled, body), 1)
}

/// Where the case after this one begins.
pub(crate) fn case_next(
    handled: bool,
    at: u32,
    pattern: &Pattern,
    guard: &Option<Expr>,
    body: &Suite,
) -> Result<u32, NoMemory>
    ensures { IfOk result (λ n.
        n ≡ case_begin at (plain_pattern pattern.now) (option_map plain_expr guard.now)
        + suite_size handled (plain_suite body.now) + 1) }
{
    let begin = after(at, case_head_size(pattern, guard), 0)?;
    after(begin, suite_size(handled, body), 1)
}

/// Where a `match` ends.
pub(crate) fn match_end(
    handled: bool,
    at: u32,
    subject: &Expr,
    cases: &[Case],
) -> Result<u32, NoMemory>
    ensures { IfOk result (λ n.
        n ≡ at + 1 + expr_size (plain_expr subject.now)
        + cases_size handled (plain_cases cases.now)) }
{
    let first = after(at, expr_size(subject), 1)?;
    after(first, cases_size(handled, cases), 0)
}
