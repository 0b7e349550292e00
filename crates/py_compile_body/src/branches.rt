// Emission of `if` and `match`, and of what there are several of: tests, clauses and cases.

ghost use Rattle.std.specs.Prelude.{◌≡◌, ◌+◌, ◌++◌, IfOk, OnOk};
ghost use Rattle.py_syntax.specs.View.{plain_expr, plain_opt_suite, plain_arms, plain_clauses, plain_cases};
ghost use Rattle.py_compile_expr.specs.Expressions.{expr_size};
ghost use Rattle.py_compile.specs.Statements.{arms_size, arms_code, clauses_size, clauses_code, cases_size, cases_code};
ghost use Rattle.py_compile.specs.Ways.{in_hand};
ghost use Rattle.py_compile_body.specs.Parts.{if_code, match_code, at_lines};
ghost use Rattle.py_compile_body.specs.WaysView.{plain_ways};

use crate::defs::Defs;
use crate::heads::{put_arm_head, put_case_head, put_clause_end, put_clause_head};
use crate::parts::put_marked_expr;
use crate::places::{arm_next, case_next, clause_places, if_end, match_end};
use crate::statements::put_suite;
use crate::ways::{Ways, in_clause, in_hand};
use py_code::Instr;
use py_compile_expr::{Builder, Op};
use py_syntax::{Arm, Case, Clause, Expr, Suite};
use py_text::NoMemory;

/// Tests with their suites.
#[cycle(statements)]
fn put_arms(
    out: &mut Builder,
    defs: &Defs,
    ways: Ways,
    at: u32,
    end: u32,
    items: &[Arm],
) -> Result<u32, NoMemory>
    ensures cells { OnOk result (out.new
        ≡ out.old ++ arms_code (at_lines defs.now) (plain_ways ways) at end
        (plain_arms items.now)) }
    ensures place { IfOk result (λ n.
        n ≡ at + arms_size (in_hand (plain_ways ways)) (plain_arms items.now)) }
{
    let mut to = at;
    for arm in items {
        let next = arm_next(in_hand(ways), to, &arm.test, &arm.body)?;
        let begin = put_arm_head(out, ways.guard, to, arm.body.first, next, &arm.test)?;
        let jump = put_suite(out, defs, ways, begin, &arm.body)?;
        to = out.put(ways.guard, jump, Op::Plain(Instr::Goto(end)))?;
    }
    Ok(to)
}

/// `if`, up to its `else`.
#[cycle(statements)]
pub(crate) fn put_if(
    out: &mut Builder,
    defs: &Defs,
    ways: Ways,
    at: u32,
    arms: &[Arm],
    orelse: &Option<Suite>,
) -> Result<u32, NoMemory>
    ensures cells { OnOk result (out.new
        ≡ out.old ++ if_code (at_lines defs.now) (plain_ways ways) at (plain_arms arms.now)
        (plain_opt_suite orelse.now)) }
    ensures place { IfOk result (λ n.
        n ≡ at + arms_size (in_hand (plain_ways ways)) (plain_arms arms.now)) }
{
    let end = if_end(in_hand(ways), at, arms, orelse)?;
    put_arms(out, defs, ways, at, end, arms)
}

/// Clauses. The exception stays on top till one ends.
#[cycle(statements)]
pub(crate) fn put_clauses(
    out: &mut Builder,
    defs: &Defs,
    ways: Ways,
    at: u32,
    end: u32,
    items: &[Clause],
) -> Result<u32, NoMemory>
    ensures cells { OnOk result (out.new
        ≡ out.old ++ clauses_code (at_lines defs.now) (plain_ways ways) at end
        (plain_clauses items.now)) }
    ensures place { IfOk result (λ n.
        n ≡ at + clauses_size (in_hand (plain_ways ways)) (plain_clauses items.now)) }
{
    let inside = in_clause(ways)?;
    let mut to = at;
    for clause in items {
        let places = clause_places(inside, to, &clause.kind, &clause.name, &clause.body)?;
        let begin = put_clause_head(
            out,
            ways.guard,
            to,
            clause.body.first,
            places.next,
            &clause.kind,
            &clause.name,
        )?;
        let left = put_suite(out, defs, places.inside, begin, &clause.body)?;
        to = put_clause_end(out, ways, left, end, &clause.name)?;
    }
    out.put(ways.guard, to, Op::Plain(Instr::Uncaught))
}

/// `match`. The cases come first among the trees, since they are what the recursion goes down.
#[cycle(statements)]
pub(crate) fn put_match(
    out: &mut Builder,
    defs: &Defs,
    ways: Ways,
    at: u32,
    line: u32,
    cases: &[Case],
    subject: &Expr,
) -> Result<u32, NoMemory>
    ensures cells { OnOk result (out.new
        ≡ out.old ++ match_code (at_lines defs.now) (plain_ways ways) at line
        (plain_expr subject.now) (plain_cases cases.now)) }
    ensures place { IfOk result (λ n.
        n ≡ at + (1 + expr_size (plain_expr subject.now)
        + cases_size (in_hand (plain_ways ways)) (plain_cases cases.now))) }
{
    let end = match_end(in_hand(ways), at, subject, cases)?;
    let first = put_marked_expr(out, ways.guard, at, line, subject)?;
    put_cases(out, defs, ways, first, end, cases)
}

/// Cases. The subject is on top till one is chosen.
#[cycle(statements)]
pub(crate) fn put_cases(
    out: &mut Builder,
    defs: &Defs,
    ways: Ways,
    at: u32,
    end: u32,
    items: &[Case],
) -> Result<u32, NoMemory>
    ensures cells { OnOk result (out.new
        ≡ out.old ++ cases_code (at_lines defs.now) (plain_ways ways) at end
        (plain_cases items.now)) }
    ensures place { IfOk result (λ n.
        n ≡ at + cases_size (in_hand (plain_ways ways)) (plain_cases items.now)) }
{
    let handled = in_hand(ways);
    let mut to = at;
    for case in items {
        let next = case_next(handled, to, &case.pattern, &case.guard, &case.body)?;
        let begin = put_case_head(
            out,
            ways.guard,
            to,
            case.body.first,
            next,
            &case.pattern,
            &case.guard,
        )?;
        let jump = put_suite(out, defs, ways, begin, &case.body)?;
        to = out.put(ways.guard, jump, Op::Plain(Instr::Goto(end)))?;
    }
    out.put(ways.guard, to, Op::Plain(Instr::Pop))
}
