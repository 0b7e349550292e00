// What expressions inside statements are for, and how statements go on after them.

ghost use Rattle.std.specs.Prelude.{◌≡◌};
ghost use Rattle.py_statements.specs.Machine.{resume, wanted};
ghost use Rattle.py_statements.specs.Levels.{begins_at};
ghost use Rattle.py_statements.specs.ViewStates.{view_continuation, Continues};
ghost use Rattle.py_statements.specs.ViewSuiteOf.{boxed_expr};

use crate::after_expression::{
    after_for_target, after_header, after_kind, after_param_default, after_subject, after_test,
    after_value,
};
use crate::kinds::{asserted, augmented, left};
use crate::lists::has_arms;
use crate::places::State;
use crate::statement_end::end_made;
use crate::suite_of::{PartialMatch, PartialTry, Signature, SuiteOf};
use crate::suite_stack::{Span, SuiteStack};
use py_operator::BinOp;
use py_syntax::{Arm, Expr, Pattern};
use py_text::{NoMemory, Text};
use py_token::Token;
use std::alloc::Global;

/// What an expression is for, with the parts of its statement in front of it.
pub enum Continuation {
    /// An expression statement, or the value of an assignment with these targets; or one more
    /// target.
    Value(Vec<Expr>),
    Augmented(Box<Expr>, BinOp),
    Leaving(bool),
    Asserted,
    Reason(Box<Expr>),
    ArmTest(Vec<Arm>),
    WhileTest,
    ForTarget,
    ForOver(Box<Expr>),
    ClauseKind(PartialTry),
    Subject,
    Guard(Box<PartialMatch>, Box<Pattern>),
    /// The default of a parameter, after the others with theirs.
    Default(Signature, Text),
}

impl Drop for Continuation {
    fn drop(self) {
        match self {
            Continuation::Value(targets) => drop(targets),
            Continuation::Augmented(place, _) => drop(place),
            Continuation::Leaving(_) => (),
            Continuation::Asserted => (),
            Continuation::Reason(test) => drop(test),
            Continuation::ArmTest(arms) => drop(arms),
            Continuation::WhileTest => (),
            Continuation::ForTarget => (),
            Continuation::ForOver(target) => drop(target),
            Continuation::ClauseKind(partial_try) => drop(partial_try),
            Continuation::Subject => (),
            Continuation::Guard(partial_match, pattern) => {
                drop(partial_match);
                drop(pattern)
            }
            Continuation::Default(signature, param) => {
                drop(signature);
                drop(param)
            }
        }
    }
}

impl Continuation {
    /// Whether a compound statement has just begun, where the expression begins.
    pub fn begins(&self) -> bool
        ensures { result ≡ begins_at (wanted (view_continuation self.now)) }
    {
        match self {
            Continuation::Value(_) => false,
            Continuation::Augmented(_, _) => false,
            Continuation::Leaving(_) => false,
            Continuation::Asserted => false,
            Continuation::Reason(_) => false,
            Continuation::ArmTest(arms) => !has_arms(arms),
            Continuation::WhileTest => true,
            Continuation::ForTarget => true,
            Continuation::ForOver(_) => false,
            Continuation::ClauseKind(_) => false,
            Continuation::Subject => true,
            Continuation::Guard(_, _) => false,
            Continuation::Default(_, _) => false,
        }
    }

    /// The expression is whole, and this token comes.
    pub fn resume(
        self,
        alloc: Global,
        expr: Box<Expr>,
        span: Span,
        suites: SuiteStack,
        token: &Token,
    ) -> Result<Option<State>, NoMemory>
        ensures { Continues token.now (resume (view_continuation self) (boxed_expr expr))
            span suites result }
    {
        match self {
            Continuation::Value(targets) => after_value(alloc, targets, expr, span, suites, token),
            Continuation::Augmented(place, op) => {
                let kind = augmented(alloc, place, op, expr);
                end_made(alloc, kind, span, suites, token)
            }
            Continuation::Leaving(raises) => {
                let kind = left(alloc, raises, Some(expr));
                end_made(alloc, kind, span, suites, token)
            }
            Continuation::Asserted => after_test(alloc, expr, span, suites, token),
            Continuation::Reason(test) => {
                let kind = asserted(alloc, test, Some(expr));
                end_made(alloc, kind, span, suites, token)
            }
            Continuation::ArmTest(arms) => {
                after_header(alloc, SuiteOf::Arm(arms, expr), span, suites, token)
            }
            Continuation::WhileTest => {
                after_header(alloc, SuiteOf::While(expr), span, suites, token)
            }
            Continuation::ForTarget => Ok(after_for_target(expr, span, suites, token)),
            Continuation::ForOver(target) => {
                after_header(alloc, SuiteOf::For(target, expr), span, suites, token)
            }
            Continuation::ClauseKind(partial_try) => {
                after_kind(alloc, partial_try, expr, span, suites, token)
            }
            Continuation::Subject => Ok(after_subject(expr, span, suites, token)),
            Continuation::Guard(partial_match, pattern) => {
                let suite_of = SuiteOf::Case(partial_match, pattern, Some(expr));
                after_header(alloc, suite_of, span, suites, token)
            }
            Continuation::Default(signature, param) => {
                after_param_default(alloc, signature, param, expr, span, suites, token)
            }
        }
    }
}
