// Chains of comparisons, a token at a time.

ghost use Rattle.std.specs.Prelude.{◌≡◌, false};
ghost use Rattle.py_syntax.specs.Normal.{height, is_target};
ghost use Rattle.py_syntax.specs.View.{plain_expr};
ghost use Rattle.py_grammar.specs.Machine.{snoc_link, Linked, Next, step};
ghost use Rattle.py_parse_expr.specs.ExprViews.{view_class, view_links, IsChain};
ghost use Rattle.py_parse_expr.specs.ExprStacks.{Valid};
ghost use Rattle.py_parse_expr.specs.ExprTurns.{view_at, Stays, Steps};

use crate::expr_classes::TokenClass;
use crate::expr_frames::link;
use crate::expr_nodes::{Chain, Measured};
use crate::expr_stack::{Frame, Stack};
use crate::expr_steps::give;
use crate::expr_turns::{FrameStep, Progress, Turn};
use py_operator::CmpOp;
use py_parse_fields::operators::Precedence;
use py_parse_fields::token_classes::Symbol;
use py_syntax::{Comparison, Expr};
use py_text::NoMemory;
use std::alloc::Global;

pub fn after_not(stack: &mut Stack, chain: Chain, class: TokenClass) -> Result<Turn, NoMemory>
    requires valid { Valid stack.old.limit stack.old }
    requires chain { IsChain chain }
    ensures { Steps (Progress.AfterNot chain) class stack.old stack.new result }
{
    match class {
        TokenClass::Symbol(Symbol::Compare(CmpOp::In)) => {
            stack.push(Frame::CompareRest(chain, CmpOp::NotIn))?;
            Ok(Turn::Next(Progress::Want(Precedence::Sum)))
        }
        other => {
            drop(other);
            drop(chain);
            Ok(Turn::Stuck)
        }
    }
}

/// After `is` or `is not`, a word stands that is an expression.
fn constant(alloc: Global, chain: Chain, op: Comparison, expr: Expr) -> Result<Turn, NoMemory>
    requires chain { IsChain chain }
    requires height { height (plain_expr expr) ≡ 1 }
    requires target { is_target (plain_expr expr) ≡ false }
    ensures { Stays (λ k. Next (Linked (plain_expr chain.first.value)
        (snoc_link (view_links chain) op (plain_expr expr)) k)) result }
{
    match Measured::low(alloc, expr) {
        Ok(measured) => Ok(Turn::Next(Progress::Linked(chain.with(op, measured)?))),
        Err(error) => {
            drop(chain);
            Err(error)
        }
    }
}

pub fn after_is(alloc: Global, chain: Chain, class: TokenClass) -> Result<Turn, NoMemory>
    requires { IsChain chain }
    ensures { Stays (λ k. step (view_at (Progress.AfterIs chain) k) (view_class class)) result }
{
    match class {
        TokenClass::Symbol(Symbol::Not) => Ok(Turn::Next(Progress::AfterIsNot(chain))),
        TokenClass::NoneWord => constant(alloc, chain, Comparison::Is, Expr::None),
        TokenClass::Bool(truth) => constant(alloc, chain, Comparison::Is, Expr::Bool(truth)),
        other => {
            drop(other);
            drop(chain);
            Ok(Turn::Stuck)
        }
    }
}

pub fn after_is_not(alloc: Global, chain: Chain, class: TokenClass) -> Result<Turn, NoMemory>
    requires { IsChain chain }
    ensures { Stays (λ k. step (view_at (Progress.AfterIsNot chain) k) (view_class class)) result }
{
    match class {
        TokenClass::NoneWord => constant(alloc, chain, Comparison::IsNot, Expr::None),
        TokenClass::Bool(truth) => constant(alloc, chain, Comparison::IsNot, Expr::Bool(truth)),
        other => {
            drop(other);
            drop(chain);
            Ok(Turn::Stuck)
        }
    }
}

pub fn linked(
    alloc: Global,
    stack: &mut Stack,
    chain: Chain,
    class: &TokenClass,
) -> Result<Turn, NoMemory>
    requires valid { Valid stack.old.limit stack.old }
    requires chain { IsChain chain }
    ensures { Steps (Progress.Linked chain) class.now stack.old stack.new result }
{
    match link(alloc, chain, class)? {
        FrameStep::Next(progress) => Ok(Turn::Next(progress)),
        FrameStep::Opens(frame, progress) => {
            stack.push(frame)?;
            Ok(Turn::Next(progress))
        }
        FrameStep::Stuck => Ok(Turn::Stuck),
        FrameStep::Passes(measured) => give(alloc, stack, measured, class),
    }
}
