//! Whether statements mark a line.
ghost use Rattle.std.specs.Prelude.{◌≡◌, ◌||◌, ℕ, not};
ghost use Rattle.py_syntax.specs.Marks.{stmts_marks, kind_marks, opt_marks, arms_marks};
ghost use Rattle.py_syntax.specs.View.{plain_stmts, plain_kind, plain_opt_suite, plain_arms};
ghost use Rattle.py_changes.specs.Changed.{is_empty};

use py_syntax::{Arm, Stmt, StmtKind, Suite};

/// Whether statements mark a line.
#[cycle(marks)]
pub(crate) fn have_marks(items: &[Stmt]) -> bool
    ensures { result ≡ not (is_empty (stmts_marks (plain_stmts items.now))) }
{
    for s in items {
        if has_mark(&s.kind) {
            return true;
        }
    }
    false
}

/// Whether a statement marks a line. Of those without suites `global` alone doesn't.
#[cycle(marks)]
fn has_mark(kind: &StmtKind) -> bool
    ensures { (l : ℕ) → result ≡ not (is_empty (kind_marks l (plain_kind kind.now))) }
{
    match *kind {
        StmtKind::Expr(_) | StmtKind::Assign { .. } | StmtKind::AugAssign { .. } => true,
        StmtKind::Pass | StmtKind::Break | StmtKind::Continue => true,
        StmtKind::Return(_) | StmtKind::Raise(_) | StmtKind::Assert(_, _) => true,
        StmtKind::Global(_) => false,
        StmtKind::Import(_) | StmtKind::From(_, _) => true,
        StmtKind::If {
            ref arms,
            ref orelse,
        } => has_arm(arms, may_mark(orelse)),
        StmtKind::While { .. } | StmtKind::For { .. } | StmtKind::Try { .. } => true,
        StmtKind::Def { .. } | StmtKind::Match { .. } => true,
    }
}

/// Whether an `if` marks a line: where it has no test, its `else` may.
fn has_arm(arms: &[Arm], otherwise: bool) -> bool
    ensures { result ≡ (not (is_empty (arms_marks (plain_arms arms.now))) || otherwise) }
{
    match arms.split_first() {
        None => otherwise,
        Some(_) => true,
    }
}

/// Whether the suite of an `else` is there and marks a line.
#[cycle(marks)]
fn may_mark(s: &Option<Suite>) -> bool
    ensures { result ≡ not (is_empty (opt_marks (plain_opt_suite s.now))) }
{
    match s {
        None => false,
        Some(s) => have_marks(&s.body),
    }
}
