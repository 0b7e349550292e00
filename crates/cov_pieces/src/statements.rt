//! The pieces of statements and bodies.
ghost use Rattle.std.specs.Prelude.{◌≡◌, IfOk};
ghost use Rattle.py_syntax.specs.Marks.{function_marks};
ghost use Rattle.py_syntax.specs.View.{plain_stmts, plain_kind, plain_suite, plain_opt_suite, plain_arms, plain_clauses, plain_cases};
ghost use Rattle.cov_pieces.specs.Pieces.{marks, kind_pieces, suite_pieces, opt_pieces, arms_pieces, clauses_pieces, cases_pieces, body_pieces};
ghost use Rattle.cov_pieces.specs.Views.{Adds, led_pieces, first_pieces, pieces_of};

use crate::heads::{
    assertion, assignment, augmented, begin_if, begin_loop, begin_match, begin_try, case, clause,
    declarations, definition, expression, goes_over, has_docstring, heads, idle, imports,
    imports_from, leaving, test,
};
use crate::outline::Outline;
use crate::piece::{Function, Piece};
use py_docstrings::is_docstring;
use py_syntax::{Arm, Case, Clause, Stmt, StmtKind, Suite};
use py_text::NoMemory;
use std::alloc::Global;

/// The pieces of the body of a module or a function. What stands in a `def` gives marks alone.
pub fn pieces<'a>(alloc: Global, items: &'a [Stmt]) -> Result<Vec<Piece<'a>>, NoMemory>
    ensures { IfOk result (λ pieces. pieces_of pieces.items
        ≡ body_pieces (plain_stmts items.now)) }
{
    let mut out = Outline::new(alloc);
    body(&mut out, items);
    out.finish()
}

/// Adds the body of a module or a function.
fn body<'a>(out: &mut Outline<'a>, items: &'a [Stmt])
    ensures { Adds out.old out.new (body_pieces (plain_stmts items.now)) }
{
    out.push(Piece::Open);
    out.truth(has_docstring(items));
    heads(out, items);
    out.push(Piece::Inside);
    statements(out, true, items);
    out.push(Piece::Close)
}

/// Adds statements, of which the first is no statement where it leads a body as its docstring.
#[cycle(statements)]
fn statements<'a>(out: &mut Outline<'a>, leads: bool, items: &'a [Stmt])
    ensures { Adds out.old out.new (led_pieces leads (plain_stmts items.now)) }
{
    let mut first = leads;
    for s in items {
        leading(out, first, s);
        first = false;
    }
}

#[cycle(statements)]
fn leading<'a>(out: &mut Outline<'a>, leads: bool, s: &'a Stmt)
    ensures { Adds out.old out.new (first_pieces leads s.now.first (plain_kind s.now.kind)) }
{
    if leads && is_docstring(&s.kind) {
        return;
    }
    statement(out, s.first, &s.kind)
}

#[cycle(statements)]
fn statement<'a>(out: &mut Outline<'a>, line: u32, kind: &'a StmtKind)
    ensures { Adds out.old out.new (kind_pieces line (plain_kind kind.now)) }
{
    match kind {
        StmtKind::Expr(e) => expression(out, line, e),
        StmtKind::Assign { targets, value } => assignment(out, line, targets, value),
        StmtKind::AugAssign { place, op, value } => augmented(out, line, place, *op, value),
        StmtKind::Pass | StmtKind::Break | StmtKind::Continue => idle(out, line),
        StmtKind::Return(e) => leaving(out, line, e),
        StmtKind::Raise(e) => leaving(out, line, e),
        StmtKind::Assert(test, why) => assertion(out, line, test, why),
        StmtKind::Global(names) => declarations(out, names),
        StmtKind::Import(names) => imports(out, line, names),
        StmtKind::From(of, names) => imports_from(out, line, of, names),
        StmtKind::If { arms, orelse } => {
            let arms: &[Arm] = arms;
            begin_if(out, arms, orelse);
            branches(out, arms);
            opt(out, orelse);
            out.push(Piece::Close)
        }
        StmtKind::While {
            test: asked,
            body: inner,
            orelse,
        } => {
            begin_loop(out, inner, orelse);
            test(out, line, asked);
            suite(out, inner);
            opt(out, orelse);
            out.push(Piece::Close)
        }
        StmtKind::For {
            target,
            over,
            body: inner,
            orelse,
        } => {
            begin_loop(out, inner, orelse);
            goes_over(out, line, target, over);
            suite(out, inner);
            opt(out, orelse);
            out.push(Piece::Close)
        }
        StmtKind::Try {
            body: inner,
            clauses,
            orelse,
            finally,
        } => {
            let clauses: &[Clause] = clauses;
            begin_try(out, line, inner, clauses, orelse, finally);
            suite(out, inner);
            handlers(out, clauses);
            opt(out, orelse);
            opt(out, finally);
            out.push(Piece::Close)
        }
        StmtKind::Def {
            name,
            params,
            defaults,
            comma,
            body: inner,
        } => {
            definition(out, line, name, defaults, *comma);
            out.push(Piece::Defined(Function {
                line,
                name,
                params,
                body: &inner.body,
            }));
            function(out, inner)
        }
        StmtKind::Match { subject, cases, .. } => {
            let cases: &[Case] = cases;
            begin_match(out, cases);
            test(out, line, subject);
            choices(out, cases);
            out.push(Piece::Close)
        }
    }
}

/// Adds the marks of the body of a function.
#[cycle(statements)]
fn function<'a>(out: &mut Outline<'a>, s: &'a Suite)
    ensures { Adds out.old out.new (marks (function_marks (plain_suite s.now))) }
{
    let alone = out.keep_marks_alone();
    statements(out, true, &s.body);
    out.restore(alone)
}

#[cycle(statements)]
fn suite<'a>(out: &mut Outline<'a>, s: &'a Suite)
    ensures { Adds out.old out.new (suite_pieces (plain_suite s.now)) }
{
    let items: &[Stmt] = &s.body;
    out.push(Piece::Open);
    heads(out, items);
    out.push(Piece::Inside);
    statements(out, false, items);
    out.push(Piece::Close)
}

#[cycle(statements)]
fn opt<'a>(out: &mut Outline<'a>, s: &'a Option<Suite>)
    ensures { Adds out.old out.new (opt_pieces (plain_opt_suite s.now)) }
{
    match s {
        None => (),
        Some(s) => suite(out, s),
    }
}

#[cycle(statements)]
fn branches<'a>(out: &mut Outline<'a>, items: &'a [Arm])
    ensures { Adds out.old out.new (arms_pieces (plain_arms items.now)) }
{
    for arm in items {
        test(out, arm.body.first, &arm.test);
        suite(out, &arm.body);
    }
}

#[cycle(statements)]
fn handlers<'a>(out: &mut Outline<'a>, items: &'a [Clause])
    ensures { Adds out.old out.new (clauses_pieces (plain_clauses items.now)) }
{
    for handler in items {
        clause(out, handler.body.first, &handler.kind, &handler.name);
        suite(out, &handler.body);
    }
}

#[cycle(statements)]
fn choices<'a>(out: &mut Outline<'a>, items: &'a [Case])
    ensures { Adds out.old out.new (cases_pieces (plain_cases items.now)) }
{
    for choice in items {
        case(out, choice.body.first, &choice.pattern, &choice.guard);
        suite(out, &choice.body);
    }
}
