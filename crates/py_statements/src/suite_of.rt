// What an open suite belongs to: a part of a compound statement, with what was read of the
// statement before it.

ghost use Rattle.std.specs.Prelude.{◌≡◌, ◌++◌, ◌∷◌, [], IfOk, option_map};
ghost use Rattle.py_syntax.specs.View.{plain_expr, plain_exprs, plain_pattern};
ghost use Rattle.py_syntax.specs.View.{plain_suite, plain_opt_suite};
ghost use Rattle.py_syntax.specs.View.{plain_arms, plain_clauses, plain_cases};
ghost use Rattle.py_grammar.specs.Machine.{snoc};
ghost use Rattle.py_statements.specs.Open.{an_arm, a_while, a_for, a_try, with_else, closed};
ghost use Rattle.py_statements.specs.Open.{snoc_arm, snoc_clause, snoc_case};
ghost use Rattle.py_statements.specs.Levels.{begins_at};
ghost use Rattle.py_statements.specs.Machine.{ColonWanted, case_closed, over_suite};
ghost use Rattle.py_statements.specs.ViewSuiteOf.{boxed_expr, boxed_kind, boxed_pattern};
ghost use Rattle.py_statements.specs.ViewSuiteOf.{view_else_of, view_suite_of, of_match};
ghost use Rattle.py_statements.specs.ViewSuiteOf.{try_of, clause_of, def_of, case_of};
ghost use Rattle.py_statements.specs.ViewStates.{view_suites, view_state};

use crate::after_expression::add_expr;
use crate::kinds::{boxed, unboxed};
use crate::places::State;
use crate::suite_stack::SuiteStack;
use py_syntax::{Arm, Case, Clause, Expr, Pattern, StmtKind, Suite};
use py_text::{NoMemory, Text};
use std::alloc::Global;

/// A `match` statement with its cases so far.
#[derive(Drop)]
pub struct PartialMatch {
    pub subject: Expr,
    pub header_last: u32,
    pub cases: Vec<Case>,
}

/// A `try` statement with its clauses so far.
pub struct PartialTry {
    pub body: Suite,
    pub clauses: Vec<Clause>,
}

// As of `Suite`: letting it go is one call.
impl Drop for PartialTry {
    fn drop(self) {
        let PartialTry { body, clauses } = self;
        drop(body);
        drop(clauses)
    }
}

/// The name of a `def` and its parameters so far.
pub struct Signature {
    pub name: Text,
    pub params: Vec<Text>,
    pub defaults: Vec<Expr>,
}

impl Drop for Signature {
    fn drop(self) {
        let Signature {
            name,
            params,
            defaults,
        } = self;
        drop(name);
        drop(params);
        drop(defaults)
    }
}

/// A statement that may take an `else`, and has none yet.
pub enum ElseOf {
    If(Vec<Arm>),
    While(Expr, Suite),
    For(Expr, Expr, Suite),
    Try(PartialTry),
}

impl Drop for ElseOf {
    fn drop(self) {
        match self {
            ElseOf::If(arms) => drop(arms),
            ElseOf::While(test, body) => {
                drop(test);
                drop(body)
            }
            ElseOf::For(target, over, body) => {
                drop(target);
                drop(over);
                drop(body)
            }
            ElseOf::Try(partial_try) => drop(partial_try),
        }
    }
}

/// What an open suite belongs to.
pub enum SuiteOf {
    Arm(Vec<Arm>, Box<Expr>),
    While(Box<Expr>),
    For(Box<Expr>, Box<Expr>),
    Try,
    Clause(PartialTry, Option<Box<Expr>>, Option<Text>),
    Else(ElseOf),
    Finally(PartialTry, Option<Suite>),
    Def(Signature, bool),
    Case(Box<PartialMatch>, Box<Pattern>, Option<Box<Expr>>),
}

impl Drop for SuiteOf {
    fn drop(self) {
        match self {
            SuiteOf::Arm(arms, test) => {
                drop(arms);
                drop(test)
            }
            SuiteOf::While(test) => drop(test),
            SuiteOf::For(target, over) => {
                drop(target);
                drop(over)
            }
            SuiteOf::Try => (),
            SuiteOf::Clause(partial_try, kind, bound) => {
                drop(partial_try);
                drop(kind);
                drop(bound)
            }
            SuiteOf::Else(else_of) => drop(else_of),
            SuiteOf::Finally(partial_try, orelse) => {
                drop(partial_try);
                drop(orelse)
            }
            SuiteOf::Def(signature, _) => drop(signature),
            SuiteOf::Case(partial_match, pattern, guard) => {
                drop(partial_match);
                drop(pattern);
                drop(guard)
            }
        }
    }
}

fn add_arm(arms: Vec<Arm>, test: Expr, body: Suite) -> Result<Vec<Arm>, NoMemory>
    ensures { IfOk result (λ r. plain_arms r.items
        ≡ snoc_arm (plain_arms arms.items) (plain_expr test) (plain_suite body)) }
{
    let mut arms = arms;
    arms.push(Arm { test, body })?;
    Ok(arms)
}

fn add_clause(
    clauses: Vec<Clause>,
    kind: Option<Expr>,
    name: Option<Text>,
    body: Suite,
) -> Result<Vec<Clause>, NoMemory>
    ensures { IfOk result (λ r. plain_clauses r.items ≡ snoc_clause (plain_clauses clauses.items)
        (option_map plain_expr kind) name (plain_suite body)) }
{
    let mut clauses = clauses;
    clauses.push(Clause { kind, name, body })?;
    Ok(clauses)
}

/// A case more.
fn add_case(
    cases: Vec<Case>,
    pattern: Pattern,
    guard: Option<Expr>,
    body: Suite,
) -> Result<Vec<Case>, NoMemory>
    ensures { IfOk result (λ r. plain_cases r.items ≡ snoc_case (plain_cases cases.items)
        (plain_pattern pattern) (option_map plain_expr guard) (plain_suite body)) }
{
    let mut cases = cases;
    cases.push(Case {
        pattern,
        guard,
        body,
    })?;
    Ok(cases)
}

impl ElseOf {
    /// The statement with its `else` suite.
    fn with_else(self, alloc: Global, suite: Suite) -> Result<Box<StmtKind>, NoMemory>
        ensures { IfOk result (λ k.
            boxed_kind k ≡ with_else (view_else_of self) (plain_suite suite)) }
    {
        let orelse = Some(suite);
        match self {
            ElseOf::If(arms) => boxed(alloc, StmtKind::If { arms, orelse }),
            ElseOf::While(test, body) => boxed(alloc, StmtKind::While { test, body, orelse }),
            ElseOf::For(target, over, body) => {
                let kind = StmtKind::For {
                    target,
                    over,
                    body,
                    orelse,
                };
                boxed(alloc, kind)
            }
            ElseOf::Try(partial_try) => partial_try.tried(alloc, orelse, None),
        }
    }
}

/// An `if` with one test more.
fn tested(
    alloc: Global,
    arms: Vec<Arm>,
    test: Box<Expr>,
    body: Suite,
) -> Result<Box<StmtKind>, NoMemory>
    ensures { IfOk result (λ k. boxed_kind k
        ≡ closed (an_arm (plain_arms arms.items) (boxed_expr test)) (plain_suite body)) }
{
    let arms = add_arm(arms, Box::into_inner(test), body)?;
    boxed(alloc, StmtKind::If { arms, orelse: None })
}

/// A `while` with its suite.
fn repeated(alloc: Global, test: Box<Expr>, body: Suite) -> Result<Box<StmtKind>, NoMemory>
    ensures { IfOk result (λ k.
        boxed_kind k ≡ closed (a_while (boxed_expr test)) (plain_suite body)) }
{
    let kind = StmtKind::While {
        test: Box::into_inner(test),
        body,
        orelse: None,
    };
    boxed(alloc, kind)
}

/// A `for` with its suite.
fn looped(
    alloc: Global,
    target: Box<Expr>,
    over: Box<Expr>,
    body: Suite,
) -> Result<Box<StmtKind>, NoMemory>
    ensures { IfOk result (λ k. boxed_kind k
        ≡ closed (a_for (boxed_expr target) (boxed_expr over)) (plain_suite body)) }
{
    let kind = StmtKind::For {
        target: Box::into_inner(target),
        over: Box::into_inner(over),
        body,
        orelse: None,
    };
    boxed(alloc, kind)
}

/// A `try` with its suite.
fn begun_try(alloc: Global, body: Suite) -> Result<Box<StmtKind>, NoMemory>
    ensures { IfOk result (λ k. boxed_kind k ≡ closed a_try (plain_suite body)) }
{
    let kind = StmtKind::Try {
        body,
        clauses: Vec::new(alloc),
        orelse: None,
        finally: None,
    };
    boxed(alloc, kind)
}

impl PartialTry {
    /// The statement with its clauses so far, and further suites.
    pub(crate) fn tried(
        self,
        alloc: Global,
        orelse: Option<Suite>,
        finally: Option<Suite>,
    ) -> Result<Box<StmtKind>, NoMemory>
        ensures { IfOk result (λ k. boxed_kind k
            ≡ try_of self (plain_opt_suite orelse) (plain_opt_suite finally)) }
    {
        let PartialTry { body, clauses } = self;
        let kind = StmtKind::Try {
            body,
            clauses,
            orelse,
            finally,
        };
        boxed(alloc, kind)
    }

    /// The statement with one clause more.
    fn handled(
        self,
        alloc: Global,
        kind: Option<Expr>,
        bound: Option<Text>,
        suite: Suite,
    ) -> Result<Box<StmtKind>, NoMemory>
        ensures { IfOk result (λ k. boxed_kind k ≡ closed
            (clause_of self (option_map plain_expr kind) bound) (plain_suite suite)) }
    {
        let PartialTry { body, clauses } = self;
        let clauses = add_clause(clauses, kind, bound, suite)?;
        PartialTry { body, clauses }.tried(alloc, None, None)
    }
}

impl Signature {
    /// With a parameter more.
    pub(crate) fn with_param(self, param: Text) -> Result<Signature, NoMemory>
        ensures name { IfOk result (λ s. s.name ≡ self.name) }
        ensures params { IfOk result (λ s. s.params.items ≡ self.params.items ++ param ∷ []) }
        ensures defaults { IfOk result (λ s.
            plain_exprs s.defaults.items ≡ plain_exprs self.defaults.items) }
    {
        let Signature {
            name,
            params,
            defaults,
        } = self;
        let mut params = params;
        params.push(param)?;
        Ok(Signature {
            name,
            params,
            defaults,
        })
    }

    /// And its default.
    pub(crate) fn with_default(self, default: Expr) -> Result<Signature, NoMemory>
        ensures name { IfOk result (λ s. s.name ≡ self.name) }
        ensures params { IfOk result (λ s. s.params ≡ self.params) }
        ensures defaults { IfOk result (λ s. plain_exprs s.defaults.items
            ≡ snoc (plain_exprs self.defaults.items) (plain_expr default)) }
    {
        let Signature {
            name,
            params,
            defaults,
        } = self;
        let defaults = add_expr(defaults, default)?;
        Ok(Signature {
            name,
            params,
            defaults,
        })
    }

    /// A `def` with its body.
    fn defined(self, alloc: Global, comma: bool, body: Suite) -> Result<Box<StmtKind>, NoMemory>
        ensures { IfOk result (λ k.
            boxed_kind k ≡ closed (def_of self comma) (plain_suite body)) }
    {
        let Signature {
            name,
            params,
            defaults,
        } = self;
        let kind = StmtKind::Def {
            name,
            params,
            defaults,
            comma,
            body,
        };
        boxed(alloc, kind)
    }
}

/// A `match` with one case more.
fn chosen(
    alloc: Global,
    partial_match: Box<PartialMatch>,
    pattern: Box<Pattern>,
    guard: Option<Box<Expr>>,
    suite: Suite,
) -> Result<Box<StmtKind>, NoMemory>
    ensures { IfOk result (λ k. boxed_kind k ≡ closed
        (case_of partial_match (boxed_pattern pattern) (option_map boxed_expr guard))
        (plain_suite suite)) }
{
    let PartialMatch {
        subject,
        header_last,
        cases,
    } = Box::into_inner(partial_match);
    let cases = add_case(cases, Box::into_inner(pattern), unboxed(guard), suite)?;
    let kind = StmtKind::Match {
        subject,
        header_last,
        cases,
    };
    boxed(alloc, kind)
}

/// After a case.
fn choosing(
    alloc: Global,
    partial_match: Box<PartialMatch>,
    pattern: Box<Pattern>,
    guard: Option<Box<Expr>>,
    suite: Suite,
    begun: u32,
    outer: SuiteStack,
) -> Result<State, NoMemory>
    ensures { IfOk result (λ s. view_state s ≡ of_match case_closed partial_match
        (boxed_pattern pattern) (option_map boxed_expr guard) (plain_suite suite)
        begun (view_suites outer)) }
{
    let PartialMatch {
        subject,
        header_last,
        cases,
    } = Box::into_inner(partial_match);
    let cases = add_case(cases, Box::into_inner(pattern), unboxed(guard), suite)?;
    let partial_match = PartialMatch {
        subject,
        header_last,
        cases,
    };
    Ok(State::Choosing(Box::new(alloc, partial_match)?, begun, outer))
}

impl SuiteOf {
    /// The statement so far, where the suite is closed.
    fn closed(self, alloc: Global, suite: Suite) -> Result<Box<StmtKind>, NoMemory>
        ensures { IfOk result (λ k.
            boxed_kind k ≡ closed (view_suite_of self) (plain_suite suite)) }
    {
        match self {
            SuiteOf::Arm(arms, test) => tested(alloc, arms, test, suite),
            SuiteOf::While(test) => repeated(alloc, test, suite),
            SuiteOf::For(target, over) => looped(alloc, target, over, suite),
            SuiteOf::Try => begun_try(alloc, suite),
            SuiteOf::Clause(partial_try, kind, bound) => {
                partial_try.handled(alloc, unboxed(kind), bound, suite)
            }
            SuiteOf::Else(else_of) => else_of.with_else(alloc, suite),
            SuiteOf::Finally(partial_try, orelse) => {
                partial_try.tried(alloc, orelse, Some(suite))
            }
            SuiteOf::Def(signature, comma) => signature.defined(alloc, comma, suite),
            SuiteOf::Case(partial_match, pattern, guard) => {
                chosen(alloc, partial_match, pattern, guard, suite)
            }
        }
    }

    /// Its suite ends with a token whose last line is this.
    pub fn over_suite(
        self,
        alloc: Global,
        suite: Suite,
        begun: u32,
        last: u32,
        outer: SuiteStack,
    ) -> Result<State, NoMemory>
        ensures { IfOk result (λ s. view_state s
            ≡ over_suite (view_suite_of self) (plain_suite suite) begun last (view_suites outer)) }
    {
        match self {
            suite_of @ (SuiteOf::Arm(..)
            | SuiteOf::While(..)
            | SuiteOf::For(..)
            | SuiteOf::Try { .. }
            | SuiteOf::Clause(..)
            | SuiteOf::Else(..)
            | SuiteOf::Finally(..)
            | SuiteOf::Def(..)) => {
                let kind = suite_of.closed(alloc, suite)?;
                Ok(State::After(kind, begun, last, outer))
            }
            SuiteOf::Case(partial_match, pattern, guard) => {
                choosing(alloc, partial_match, pattern, guard, suite, begun, outer)
            }
        }
    }

    /// Whether it is a statement that has just begun.
    pub fn begins(&self) -> bool
        ensures { result ≡ begins_at (ColonWanted (view_suite_of self.now)) }
    {
        match self {
            SuiteOf::Arm(_, _) => false,
            SuiteOf::While(_) => false,
            SuiteOf::For(_, _) => false,
            SuiteOf::Try => true,
            SuiteOf::Clause(_, _, _) => false,
            SuiteOf::Else(_) => false,
            SuiteOf::Finally(_, _) => false,
            SuiteOf::Def(_, _) => false,
            SuiteOf::Case(_, _, _) => false,
        }
    }
}
