// Places that a mutant changes, and the texts of their tokens.

ghost use Rattle.std.specs.Prelude.{◌≡◌, IfOk, string_bytes};
ghost use Rattle.py_changes.specs.Mutants.{other_operator, other_comparison, other_number};
ghost use Rattle.py_changes.specs.Mutants.{operator_text, augmented_text, comparison_text};
ghost use Rattle.py_changes.specs.Mutants.{truth_text};
ghost use Rattle.std.specs.Fmt.{signed_decimal};
ghost use Rattle.cov_places.specs.PlaceView.{token_of};

use py_operator::{BinOp, CmpOp};
use py_text::NoMemory;
use std::alloc::Global;

/// A token that a mutant changes: the operator of an expression or of an augmented assignment, a
/// comparison and the one in its place, a number, or a truth value.
#[derive(Clone, Copy)]
pub enum Place {
    Operator(BinOp),
    Augmented(BinOp),
    Comparison(CmpOp, CmpOp),
    Number(i64),
    Truth(bool),
}

pub fn other_operator(op: BinOp) -> BinOp
    ensures { result ≡ other_operator op }
{
    match op {
        BinOp::Add => BinOp::Sub,
        BinOp::Sub => BinOp::Add,
        BinOp::Mul => BinOp::Floor,
        BinOp::Floor => BinOp::Mul,
        BinOp::Mod => BinOp::Mul,
    }
}

pub fn other_comparison(op: CmpOp) -> Option<CmpOp>
    ensures { result ≡ other_comparison op }
{
    match op {
        CmpOp::Eq => Some(CmpOp::Ne),
        CmpOp::Ne => Some(CmpOp::Eq),
        CmpOp::Lt => Some(CmpOp::Le),
        CmpOp::Le => Some(CmpOp::Lt),
        CmpOp::Gt => Some(CmpOp::Ge),
        CmpOp::Ge => Some(CmpOp::Gt),
        CmpOp::In => None,
        CmpOp::NotIn => None,
    }
}

pub fn other_number(n: i64) -> i64
    ensures { result ≡ other_number n }
{
    if n == i64::MAX { 0 } else { n + 1 }
}

fn operator_text(op: BinOp) -> &'static str
    ensures { result.now ≡ operator_text op }
{
    match op {
        BinOp::Add => "+",
        BinOp::Sub => "-",
        BinOp::Mul => "*",
        BinOp::Floor => "//",
        BinOp::Mod => "%",
    }
}

fn augmented_text(op: BinOp) -> &'static str
    ensures { result.now ≡ augmented_text op }
{
    match op {
        BinOp::Add => "+=",
        BinOp::Sub => "-=",
        BinOp::Mul => "*=",
        BinOp::Floor => "//=",
        BinOp::Mod => "%=",
    }
}

fn comparison_text(op: CmpOp) -> &'static str
    ensures { result.now ≡ comparison_text op }
{
    match op {
        CmpOp::Eq => "==",
        CmpOp::Ne => "!=",
        CmpOp::Lt => "<",
        CmpOp::Le => "<=",
        CmpOp::Gt => ">",
        CmpOp::Ge => ">=",
        CmpOp::In => "in",
        CmpOp::NotIn => "not in",
    }
}

fn truth_text(b: bool) -> &'static str
    ensures { result.now ≡ truth_text b }
{
    if b { "True" } else { "False" }
}

fn decimal(alloc: Global, n: i64) -> Result<String, NoMemory>
    ensures { IfOk result (λ s. string_bytes s ≡ signed_decimal n) }
{
    Ok(format!(in alloc; "{n}")?)
}

fn owned(alloc: Global, text: &str) -> Result<String, NoMemory>
    ensures { IfOk result (λ s. string_bytes s ≡ text.now) }
{
    String::from_str(alloc, text)
}

impl Place {
    /// How the token is written.
    pub fn old(self, alloc: Global) -> Result<String, NoMemory>
        ensures { IfOk result (λ s. string_bytes s ≡ (token_of self).old) }
    {
        match self {
            Place::Operator(op) => owned(alloc, operator_text(op)),
            Place::Augmented(op) => owned(alloc, augmented_text(op)),
            Place::Comparison(op, _) => owned(alloc, comparison_text(op)),
            Place::Number(n) => decimal(alloc, n),
            Place::Truth(b) => owned(alloc, truth_text(b)),
        }
    }

    /// How the token in its place is written.
    pub fn new(self, alloc: Global) -> Result<String, NoMemory>
        ensures { IfOk result (λ s. string_bytes s ≡ (token_of self).new) }
    {
        match self {
            Place::Operator(op) => owned(alloc, operator_text(other_operator(op))),
            Place::Augmented(op) => owned(alloc, augmented_text(other_operator(op))),
            Place::Comparison(_, op) => owned(alloc, comparison_text(op)),
            Place::Number(n) => decimal(alloc, other_number(n)),
            Place::Truth(b) => owned(alloc, truth_text(!b)),
        }
    }
}
