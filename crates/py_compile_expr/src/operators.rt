// The operators of expressions as those of instructions.

ghost use Rattle.std.specs.Prelude.{◌≡◌, IfOk};
ghost use Rattle.std.specs.Option.{option_map};
ghost use Rattle.py_syntax.specs.View.{plain_expr, plain_exprs, opt_of};
ghost use Rattle.py_meaning.specs.Literals.{sign_operator};
ghost use Rattle.py_compile_expr.specs.Expressions.{count, question, bounds};
ghost use Rattle.py_compile_expr.specs.Pieces.{link_instr, skip_instr};

use py_code::{Bounds, Instr, Question};
use py_operator::{BinOp, CmpOp};
use py_syntax::{Comparison, Expr, Sign};
use py_text::NoMemory;
use std::alloc::AllocError;

/// A length as a number of operands.
pub fn number(length: usize) -> Result<u32, NoMemory>
    ensures { IfOk result (λ n. n ≡ length) }
{
    match u32::try_from(length) {
        Ok(n) => Ok(n),
        Err(_) => Err(AllocError),
    }
}

/// How many expressions there are.
pub fn count(items: &[Expr]) -> Result<u32, NoMemory>
    ensures { IfOk result (λ n. n ≡ count (plain_exprs items.now)) }
{
    number(items.len())
}

/// What a comparison of a chain asks.
pub(crate) fn question(op: Comparison) -> Question
    ensures { result ≡ question op }
{
    match op {
        Comparison::Op(CmpOp::Eq) => Question::Eq,
        Comparison::Op(CmpOp::Ne) => Question::Ne,
        Comparison::Op(CmpOp::Lt) => Question::Lt,
        Comparison::Op(CmpOp::Le) => Question::Le,
        Comparison::Op(CmpOp::Gt) => Question::Gt,
        Comparison::Op(CmpOp::Ge) => Question::Ge,
        Comparison::Op(CmpOp::In) => Question::In,
        Comparison::Op(CmpOp::NotIn) => Question::NotIn,
        Comparison::Is => Question::Is,
        Comparison::IsNot => Question::IsNot,
    }
}

/// The instruction of a comparison, where so many of the chain are left, this one among them.
pub(crate) fn link_instr(question: Question, end: u32, left: usize) -> Instr
    ensures { result ≡ link_instr question end left }
{
    if left == 1 {
        Instr::Compare(question)
    } else {
        Instr::Link(question, end)
    }
}

/// What leads past an expression: a test of what is on top that keeps it there, or a jump.
#[derive(Clone, Copy, Drop)]
pub(crate) enum Skip {
    And,
    Or,
    Goto,
}

/// The instruction that leads to a place so.
pub(crate) fn skip_instr(skip: Skip, to: u32) -> Instr
    ensures { result ≡ skip_instr skip to }
{
    match skip {
        Skip::And => Instr::And(to),
        Skip::Or => Instr::Or(to),
        Skip::Goto => Instr::Goto(to),
    }
}

/// A sign as the operator after 0.
pub(crate) fn sign_operator(sign: Sign) -> BinOp
    ensures { result ≡ sign_operator sign }
{
    match sign {
        Sign::Minus => BinOp::Sub,
        Sign::Plus => BinOp::Add,
    }
}

/// Which bounds of a slice there are.
pub(crate) fn bounds(from: &Option<Box<Expr>>, to: &Option<Box<Expr>>) -> Bounds
    ensures { result
        ≡ bounds (opt_of (option_map (λ b. plain_expr b.value) from.now))
        (opt_of (option_map (λ b. plain_expr b.value) to.now)) }
{
    match (from.is_some(), to.is_some()) {
        (false, false) => Bounds::Neither,
        (true, false) => Bounds::From,
        (false, true) => Bounds::To,
        (true, true) => Bounds::Both,
    }
}
