//! What is compared of a statement before its suites are: rows as wholes, and headers.
ghost use Rattle.std.specs.Prelude.{◌≡◌, ◌∷◌, [], ◌++◌, false, true};
ghost use Rattle.std.specs.Option.{option_map};
ghost use Rattle.py_syntax.specs.View.{plain_expr, plain_exprs, plain_pattern, plain_aliases, plain_stmts, plain_kind, plain_suite, plain_opt_suite, plain_arms, plain_clauses, plain_cases};
ghost use Rattle.py_changes.specs.Changed.{kind_number, has_docstring};
ghost use Rattle.cov_pieces.specs.Pieces.{words, word, open_part, inside, close, mark, header, declaring, suite_fit, opt_fit, arms_fit, clauses_fit, cases_fit, heads, test_words, loop_words, clause_words, case_words, def_words, in_place_words};
ghost use Rattle.cov_pieces.specs.Views.{Adds};
ghost use Rattle.cov_pieces.specs.Words.{a_text, expr_words, exprs_words, maybe_words, list_words, alias_words};

use crate::expressions::{expr, exprs, operator_number, option};
use crate::outline::Outline;
use crate::patterns::{aliases, exception, pattern};
use crate::piece::Piece;
use py_docstrings::is_docstring;
use py_operator::BinOp;
use py_syntax::{Alias, Arm, Case, Clause, Expr, Pattern, Stmt, StmtKind, Suite};
use py_text::Text;

/// The number of a kind of statements.
fn kind_number(kind: &StmtKind) -> u32
    ensures { result ≡ kind_number (plain_kind kind.now) }
{
    match kind {
        StmtKind::Expr(_) => 1,
        StmtKind::Assign { .. } => 2,
        StmtKind::AugAssign { .. } => 3,
        StmtKind::Pass => 4,
        StmtKind::Break => 5,
        StmtKind::Continue => 6,
        StmtKind::Return(_) => 7,
        StmtKind::Raise(_) => 8,
        StmtKind::Assert(_, _) => 9,
        StmtKind::Global(_) => 10,
        StmtKind::Import(_) => 11,
        StmtKind::From(_, _) => 12,
        StmtKind::If { .. } => 13,
        StmtKind::While { .. } => 14,
        StmtKind::For { .. } => 15,
        StmtKind::Try { .. } => 16,
        StmtKind::Def { .. } => 17,
        StmtKind::Match { .. } => 18,
    }
}

/// Adds the lines and kinds of statements.
pub(crate) fn heads<'a>(out: &mut Outline<'a>, items: &'a [Stmt])
    ensures { Adds out.old out.new (words (heads (plain_stmts items.now))) }
{
    for s in items {
        out.number(s.first);
        out.number(kind_number(&s.kind));
    }
}

/// Whether a docstring leads a body.
pub(crate) fn has_docstring(items: &[Stmt]) -> bool
    ensures { result ≡ has_docstring (plain_stmts items.now) }
{
    match items.split_first() {
        None => false,
        Some((s, _)) => is_docstring(&s.kind),
    }
}

/// Adds a suite that is compared as a whole.
fn suite_fit<'a>(out: &mut Outline<'a>, s: &'a Suite)
    ensures { Adds out.old out.new (word (suite_fit (plain_suite s.now)) ∷ []) }
{
    out.push(Piece::Row(&s.body))
}

fn opt_fit<'a>(out: &mut Outline<'a>, s: &'a Option<Suite>)
    ensures { Adds out.old out.new (word (opt_fit (plain_opt_suite s.now)) ∷ []) }
{
    match s {
        None => out.number(0),
        Some(s) => suite_fit(out, s),
    }
}

fn arms_fit<'a>(out: &mut Outline<'a>, items: &'a [Arm])
    ensures { Adds out.old out.new (words (arms_fit (plain_arms items.now))) }
{
    for arm in items {
        suite_fit(out, &arm.body);
    }
    out.number(0)
}

fn clauses_fit<'a>(out: &mut Outline<'a>, items: &'a [Clause])
    ensures { Adds out.old out.new (words (clauses_fit (plain_clauses items.now))) }
{
    for clause in items {
        suite_fit(out, &clause.body);
    }
    out.number(0)
}

fn cases_fit<'a>(out: &mut Outline<'a>, items: &'a [Case])
    ensures { Adds out.old out.new (words (cases_fit (plain_cases items.now))) }
{
    for case in items {
        suite_fit(out, &case.body);
    }
    out.number(0)
}

/// Begins an `if`.
pub(crate) fn begin_if<'a>(out: &mut Outline<'a>, arms: &'a [Arm], orelse: &'a Option<Suite>)
    ensures { Adds out.old out.new (open_part ∷ (words (arms_fit (plain_arms arms.now)
        ++ opt_fit (plain_opt_suite orelse.now) ∷ []) ++ inside ∷ [])) }
{
    out.push(Piece::Open);
    arms_fit(out, arms);
    opt_fit(out, orelse);
    out.push(Piece::Inside)
}

/// Begins a loop.
pub(crate) fn begin_loop<'a>(out: &mut Outline<'a>, body: &'a Suite, orelse: &'a Option<Suite>)
    ensures { Adds out.old out.new (open_part ∷ word (suite_fit (plain_suite body.now))
        ∷ word (opt_fit (plain_opt_suite orelse.now)) ∷ inside ∷ []) }
{
    out.push(Piece::Open);
    suite_fit(out, body);
    opt_fit(out, orelse);
    out.push(Piece::Inside)
}

/// Begins a `try`, and adds its mark.
pub(crate) fn begin_try<'a>(
    out: &mut Outline<'a>,
    line: u32,
    body: &'a Suite,
    clauses: &'a [Clause],
    orelse: &'a Option<Suite>,
    finally: &'a Option<Suite>,
)
    ensures { Adds out.old out.new (open_part ∷ (words (suite_fit (plain_suite body.now)
        ∷ (clauses_fit (plain_clauses clauses.now) ++ opt_fit (plain_opt_suite orelse.now)
        ∷ opt_fit (plain_opt_suite finally.now) ∷ [])) ++ inside ∷ mark line ∷ [])) }
{
    out.push(Piece::Open);
    suite_fit(out, body);
    clauses_fit(out, clauses);
    opt_fit(out, orelse);
    opt_fit(out, finally);
    out.push(Piece::Inside);
    out.push(Piece::Mark(line))
}

/// Begins a `match`.
pub(crate) fn begin_match<'a>(out: &mut Outline<'a>, cases: &'a [Case])
    ensures { Adds out.old out.new (open_part ∷ (words (cases_fit (plain_cases cases.now))
        ++ inside ∷ [])) }
{
    out.push(Piece::Open);
    cases_fit(out, cases);
    out.push(Piece::Inside)
}

/// Adds a test or a subject.
pub(crate) fn test<'a>(out: &mut Outline<'a>, line: u32, e: &'a Expr)
    ensures { Adds out.old out.new (header (test_words line (plain_expr e.now)) line) }
{
    out.push(Piece::Open);
    out.number(line);
    expr(out, false, e);
    out.marked(line)
}

/// Adds the target of a loop, and what it goes over.
pub(crate) fn goes_over<'a>(out: &mut Outline<'a>, line: u32, target: &'a Expr, over: &'a Expr)
    ensures { Adds out.old out.new
        (header (loop_words line (plain_expr target.now) (plain_expr over.now)) line) }
{
    out.push(Piece::Open);
    out.number(line);
    expr(out, true, target);
    expr(out, false, over);
    out.marked(line)
}

/// Adds the header of a clause.
pub(crate) fn clause<'a>(
    out: &mut Outline<'a>,
    line: u32,
    kind: &'a Option<Expr>,
    name: &'a Option<Text>,
)
    ensures { Adds out.old out.new
        (header (clause_words line (option_map plain_expr kind.now) name.now) line) }
{
    out.push(Piece::Open);
    out.number(line);
    option(out, kind);
    exception(out, name);
    out.marked(line)
}

/// Adds the header of a case.
pub(crate) fn case<'a>(out: &mut Outline<'a>, line: u32, p: &'a Pattern, guard: &'a Option<Expr>)
    ensures { Adds out.old out.new
        (header (case_words line (plain_pattern p.now) (option_map plain_expr guard.now)) line) }
{
    out.push(Piece::Open);
    out.number(line);
    pattern(out, p);
    option(out, guard);
    out.marked(line)
}

/// Adds the name and the defaults of a function.
pub(crate) fn definition<'a>(
    out: &mut Outline<'a>,
    line: u32,
    name: &'a Text,
    defaults: &'a [Expr],
    comma: bool,
)
    ensures { Adds out.old out.new
        (header (def_words name.now (plain_exprs defaults.now) comma) line) }
{
    out.push(Piece::Open);
    out.push(Piece::Assigned(name));
    exprs(out, false, defaults);
    out.truth(comma);
    out.marked(line)
}

/// Adds a statement of one word.
pub(crate) fn idle(out: &mut Outline, line: u32)
    ensures { Adds out.old out.new (header [] line) }
{
    out.push(Piece::Open);
    out.marked(line)
}

pub(crate) fn expression<'a>(out: &mut Outline<'a>, line: u32, e: &'a Expr)
    ensures { Adds out.old out.new (header (expr_words false (plain_expr e.now)) line) }
{
    out.push(Piece::Open);
    expr(out, false, e);
    out.marked(line)
}

pub(crate) fn assignment<'a>(out: &mut Outline<'a>, line: u32, targets: &'a [Expr], value: &'a Expr)
    ensures { Adds out.old out.new (header (exprs_words true (plain_exprs targets.now)
        ++ expr_words false (plain_expr value.now)) line) }
{
    out.push(Piece::Open);
    exprs(out, true, targets);
    expr(out, false, value);
    out.marked(line)
}

pub(crate) fn augmented<'a>(
    out: &mut Outline<'a>,
    line: u32,
    place: &'a Expr,
    op: BinOp,
    value: &'a Expr,
)
    ensures { Adds out.old out.new
        (header (in_place_words (plain_expr place.now) op (plain_expr value.now)) line) }
{
    out.push(Piece::Open);
    expr(out, true, place);
    out.number(operator_number(op));
    expr(out, false, value);
    out.marked(line)
}

/// Adds a `return` or a `raise`.
pub(crate) fn leaving<'a>(out: &mut Outline<'a>, line: u32, e: &'a Option<Expr>)
    ensures { Adds out.old out.new (header (maybe_words (option_map plain_expr e.now)) line) }
{
    out.push(Piece::Open);
    option(out, e);
    out.marked(line)
}

pub(crate) fn assertion<'a>(out: &mut Outline<'a>, line: u32, test: &'a Expr, why: &'a Option<Expr>)
    ensures { Adds out.old out.new (header (expr_words false (plain_expr test.now)
        ++ maybe_words (option_map plain_expr why.now)) line) }
{
    out.push(Piece::Open);
    expr(out, false, test);
    option(out, why);
    out.marked(line)
}

/// Adds names that are declared `global`.
pub(crate) fn declarations<'a>(out: &mut Outline<'a>, names: &'a [Text])
    ensures { Adds out.old out.new (declaring names.now) }
{
    for x in names {
        out.push(Piece::Declared(x));
    }
}

pub(crate) fn imports<'a>(out: &mut Outline<'a>, line: u32, names: &'a [Alias])
    ensures { Adds out.old out.new
        (header (list_words alias_words (plain_aliases names.now)) line) }
{
    out.push(Piece::Open);
    aliases(out, names);
    out.marked(line)
}

pub(crate) fn imports_from<'a>(out: &mut Outline<'a>, line: u32, of: &'a Text, names: &'a [Alias])
    ensures { Adds out.old out.new
        (header (a_text of.now ∷ list_words alias_words (plain_aliases names.now)) line) }
{
    out.push(Piece::Open);
    out.push(Piece::Name(of));
    aliases(out, names);
    out.marked(line)
}
