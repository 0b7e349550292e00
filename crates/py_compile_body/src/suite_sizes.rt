// How many instructions the code of statements takes.

ghost use Rattle.std.specs.Prelude.{◌≡◌, ℕ, ◌+◌, ◌*◌, true, IfOk};
ghost use Rattle.std.specs.Option.{option_map};
ghost use Rattle.py_syntax.specs.Tree.{index};
ghost use Rattle.py_syntax.specs.View.{plain_expr, plain_exprs, plain_pattern, plain_aliases, plain_stmts, plain_kind, plain_suite, plain_opt_suite, plain_arms, plain_clauses, plain_cases};
ghost use Rattle.py_compile_body.specs.Parts.{suite_size, handlers_size, finally_size, named_size, case_head_size};
ghost use Rattle.py_compile.specs.Statements.{option_size, import_size, take_size, augment_size, raise_size, assert_size, function_size, caught_size, guard_size, stmts_size, kind_size, opt_size, arms_size, clauses_size, cases_size};

use py_compile_expr::{
    all_size, captures, each_size, expr_size, number, pattern_size, sum, target_size,
};
use py_syntax::{Alias, Arm, Case, Clause, Expr, Pattern, Stmt, StmtKind, Suite};
use py_text::{NoMemory, Text};
use std::alloc::AllocError;

/// The size of two parts and so many instructions, where both parts have a size.
fn both(
    left: Result<u32, NoMemory>,
    right: Result<u32, NoMemory>,
    more: u32,
) -> Result<u32, NoMemory>
    ensures { (l r : ℕ) → IfOk left (λ n. n ≡ l) → IfOk right (λ n. n ≡ r)
        → IfOk result (λ n. n ≡ l + r + more) }
{
    let parts = sum(left?, right?)?;
    sum(parts, more)
}

/// A place or a size with a part and so many instructions after it, where the part has a size.
pub(crate) fn after(at: u32, size: Result<u32, NoMemory>, more: u32) -> Result<u32, NoMemory>
    ensures { (s : ℕ) → IfOk size (λ n. n ≡ s) → IfOk result (λ n. n ≡ at + s + more) }
{
    let end = sum(at, size?)?;
    sum(end, more)
}

/// So many parts of one size.
fn times(count: usize, size: u32) -> Result<u32, NoMemory>
    ensures { IfOk result (λ n. n ≡ count * size) }
{
    match number(count)?.checked_mul(size) {
        Some(n) => Ok(n),
        None => Err(AllocError),
    }
}

pub(crate) fn option_size(e: &Option<Expr>) -> Result<u32, NoMemory>
    ensures { IfOk result (λ n. n ≡ option_size (option_map plain_expr e.now)) }
{
    match e {
        None => Ok(1),
        Some(e) => expr_size(e),
    }
}

fn import_size(names: &[Alias]) -> Result<u32, NoMemory>
    ensures { IfOk result (λ n. n ≡ import_size (plain_aliases names.now)) }
{
    times(names.len(), 4)
}

fn take_size(names: &[Alias]) -> Result<u32, NoMemory>
    ensures { IfOk result (λ n. n ≡ take_size (plain_aliases names.now)) }
{
    sum(times(names.len(), 2)?, 1)
}

/// `place op= e`, without its mark.
fn augment_size(place: &Expr, e: &Expr) -> Result<u32, NoMemory>
    ensures { IfOk result (λ n. n ≡ augment_size (plain_expr place.now) (plain_expr e.now)) }
{
    match place {
        Expr::Name(_) => sum(expr_size(e)?, 3),
        Expr::Int(_) | Expr::Str(_) | Expr::FStr(_) | Expr::None | Expr::Bool(_) => Ok(4),
        Expr::Tuple { .. } | Expr::List { .. } | Expr::Dict { .. } | Expr::Paren(_) => Ok(4),
        Expr::Not(_) | Expr::And(_, _) | Expr::Or(_, _) | Expr::Unary(_, _) => Ok(4),
        Expr::Binary(_, _, _) | Expr::Compare(_, _) => Ok(4),
        Expr::Cond { .. } | Expr::Call { .. } => Ok(4),
        Expr::Index(of, key) => augment_item_size(of, key, e),
        Expr::Slice { .. } | Expr::Attr(_, _) => Ok(4),
    }
}

/// `of[key] op= e`, without its mark.
fn augment_item_size(of: &Expr, key: &Expr, e: &Expr) -> Result<u32, NoMemory>
    ensures { IfOk result (λ n.
        n ≡ augment_size (index (plain_expr of.now) (plain_expr key.now)) (plain_expr e.now)) }
{
    let read = both(expr_size(of), expr_size(key), 3);
    both(read, expr_size(e), 3)
}

fn raise_size(handled: bool, e: &Option<Expr>) -> Result<u32, NoMemory>
    ensures { IfOk result (λ n. n ≡ raise_size handled (option_map plain_expr e.now)) }
{
    match e {
        Some(e) => sum(expr_size(e)?, 1),
        None => Ok(if handled { 1 } else { 2 }),
    }
}

pub(crate) fn assert_size(why: &Option<Expr>) -> Result<u32, NoMemory>
    ensures { IfOk result (λ n. n ≡ assert_size (option_map plain_expr why.now)) }
{
    match why {
        None => Ok(1),
        Some(e) => sum(expr_size(e)?, 1),
    }
}

fn function_size(defaults: &[Expr]) -> Result<u32, NoMemory>
    ensures { IfOk result (λ n. n ≡ function_size (plain_exprs defaults.now)) }
{
    if defaults.is_empty() {
        Ok(1)
    } else {
        sum(each_size(defaults)?, 2)
    }
}

pub(crate) fn caught_size(kind: &Option<Expr>) -> Result<u32, NoMemory>
    ensures { IfOk result (λ n. n ≡ caught_size (option_map plain_expr kind.now)) }
{
    match kind {
        None => Ok(0),
        Some(e) => sum(expr_size(e)?, 2),
    }
}

pub(crate) fn guard_size(guard: &Option<Expr>) -> Result<u32, NoMemory>
    ensures { IfOk result (λ n. n ≡ guard_size (option_map plain_expr guard.now)) }
{
    match guard {
        None => Ok(0),
        Some(e) => sum(expr_size(e)?, 1),
    }
}

/// The size of a statement's code, in the suite of a clause or not.
#[cycle(sizes)]
pub(crate) fn kind_size(handled: bool, kind: &StmtKind) -> Result<u32, NoMemory>
    ensures { IfOk result (λ n. n ≡ kind_size handled (plain_kind kind.now)) }
{
    match kind {
        StmtKind::Expr(e) => sum(expr_size(e)?, 2),
        StmtKind::Assign { targets, value } => both(expr_size(value), all_size(targets), 1),
        StmtKind::AugAssign { place, value, .. } => sum(augment_size(place, value)?, 1),
        StmtKind::Pass => Ok(1),
        StmtKind::Break => Ok(2),
        StmtKind::Continue => Ok(2),
        StmtKind::Return(e) => sum(option_size(e)?, 2),
        StmtKind::Raise(e) => sum(raise_size(handled, e)?, 1),
        StmtKind::Assert(test, why) => both(expr_size(test), assert_size(why), 2),
        StmtKind::Global(_) => Ok(0),
        StmtKind::Import(names) => sum(import_size(names)?, 1),
        StmtKind::From(_, names) => sum(take_size(names)?, 4),
        StmtKind::If { arms, orelse } => both(
            arms_size(handled, arms),
            opt_size(handled, orelse),
            0,
        ),
        StmtKind::While { test, body, orelse } => {
            let suites = both(suite_size(handled, body), opt_size(handled, orelse), 0);
            both(expr_size(test), suites, 5)
        }
        StmtKind::For {
            target,
            over,
            body,
            orelse,
        } => {
            let head = both(expr_size(over), target_size(target), 1);
            let suites = both(suite_size(handled, body), opt_size(handled, orelse), 0);
            both(head, suites, 5)
        }
        StmtKind::Try {
            body,
            clauses,
            orelse,
            finally,
        } => {
            let tried = both(suite_size(handled, body), opt_size(handled, orelse), 0);
            let caught = both(tried, handlers_size(handled, clauses), 1);
            both(caught, finally_size(handled, finally), 0)
        }
        StmtKind::Def { defaults, .. } => sum(function_size(defaults)?, 2),
        StmtKind::Match { subject, cases, .. } => {
            both(expr_size(subject), cases_size(handled, cases), 1)
        }
    }
}

#[cycle(sizes)]
pub(crate) fn stmts_size(handled: bool, items: &[Stmt]) -> Result<u32, NoMemory>
    ensures { IfOk result (λ n. n ≡ stmts_size handled (plain_stmts items.now)) }
{
    let mut size = 0;
    for s in items {
        size = after(size, kind_size(handled, &s.kind), 0)?;
    }
    Ok(size)
}

#[cycle(sizes)]
pub(crate) fn suite_size(handled: bool, s: &Suite) -> Result<u32, NoMemory>
    ensures { IfOk result (λ n. n ≡ suite_size handled (plain_suite s.now)) }
{
    stmts_size(handled, &s.body)
}

#[cycle(sizes)]
pub(crate) fn opt_size(handled: bool, s: &Option<Suite>) -> Result<u32, NoMemory>
    ensures { IfOk result (λ n. n ≡ opt_size handled (plain_opt_suite s.now)) }
{
    match s {
        None => Ok(0),
        Some(s) => suite_size(handled, s),
    }
}

/// The clauses with the jump over them, where there are some.
#[cycle(sizes)]
pub(crate) fn handlers_size(handled: bool, items: &[Clause]) -> Result<u32, NoMemory>
    ensures { IfOk result (λ n. n ≡ handlers_size handled (plain_clauses items.now)) }
{
    if items.is_empty() {
        return Ok(0);
    }
    sum(clauses_size(handled, items)?, 1)
}

/// The suite of a `finally` with the instructions round it.
#[cycle(sizes)]
fn finally_size(handled: bool, s: &Option<Suite>) -> Result<u32, NoMemory>
    ensures { IfOk result (λ n. n ≡ finally_size handled (plain_opt_suite s.now)) }
{
    match s {
        None => Ok(0),
        Some(s) => sum(suite_size(handled, s)?, 5),
    }
}

#[cycle(sizes)]
pub(crate) fn arms_size(handled: bool, items: &[Arm]) -> Result<u32, NoMemory>
    ensures { IfOk result (λ n. n ≡ arms_size handled (plain_arms items.now)) }
{
    let mut size = 0;
    for arm in items {
        let one = both(expr_size(&arm.test), suite_size(handled, &arm.body), 3);
        size = after(size, one, 0)?;
    }
    Ok(size)
}

#[cycle(sizes)]
pub(crate) fn clauses_size(handled: bool, items: &[Clause]) -> Result<u32, NoMemory>
    ensures { IfOk result (λ n. n ≡ clauses_size handled (plain_clauses items.now)) }
{
    let mut size = 1;
    for clause in items {
        let rest = named_size(&clause.name);
        let one = both(
            caught_size(&clause.kind),
            suite_size(true, &clause.body),
            rest,
        );
        size = after(size, one, 0)?;
    }
    Ok(size)
}

/// How many instructions a clause has besides its kind and its suite.
fn named_size(name: &Option<Text>) -> u32
    ensures { result ≡ named_size name.now }
{
    match name {
        None => 3,
        Some(_) => 11,
    }
}

#[cycle(sizes)]
pub(crate) fn cases_size(handled: bool, items: &[Case]) -> Result<u32, NoMemory>
    ensures { IfOk result (λ n. n ≡ cases_size handled (plain_cases items.now)) }
{
    let mut size = 1;
    for case in items {
        let head = case_head_size(&case.pattern, &case.guard);
        let one = both(head, suite_size(handled, &case.body), 1);
        size = after(size, one, 0)?;
    }
    Ok(size)
}

/// A case in front of its suite.
pub(crate) fn case_head_size(pattern: &Pattern, guard: &Option<Expr>) -> Result<u32, NoMemory>
    ensures { IfOk result (λ n.
        n ≡ case_head_size (plain_pattern pattern.now) (option_map plain_expr guard.now)) }
{
    let names = captures(pattern)?;
    let bound = both(pattern_size(pattern), sum(names, names), 3);
    both(bound, guard_size(guard), 0)
}
