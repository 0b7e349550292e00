// The operators of expressions, and how tight they bind.

ghost use Rattle.std.specs.Prelude.{◌≡◌};
ghost use Rattle.py_syntax.specs.Normal.{rank};
ghost use Rattle.py_grammar.specs.TokenClasses.{operator_precedence, operator_right};
ghost use Rattle.py_grammar.specs.Machine.{at_most, same_precedence};
ghost use Rattle.py_parse_fields.specs.Frames.{view_operator, view_precedence};

use py_operator::BinOp;

/// The precedences of the grammar, from the loosest.
#[derive(Clone, Copy)]
pub enum Precedence {
    Exprs,
    Expr,
    Or,
    And,
    Not,
    Compare,
    Sum,
    Term,
    Unary,
    Post,
}

/// An operator that joins two operands and groups to the left.
#[derive(Clone, Copy)]
pub enum BinaryOperator {
    Or,
    And,
    Op(BinOp),
}

impl Precedence {
    fn rank(self) -> u8
        ensures { result ≡ rank (view_precedence self) }
    {
        match self {
            Precedence::Exprs => 1,
            Precedence::Expr => 2,
            Precedence::Or => 3,
            Precedence::And => 4,
            Precedence::Not => 5,
            Precedence::Compare => 6,
            Precedence::Sum => 7,
            Precedence::Term => 8,
            Precedence::Unary => 9,
            Precedence::Post => 10,
        }
    }

    /// Whether this precedence is as loose as the other, or looser.
    pub fn at_most(self, other: Precedence) -> bool
        ensures { result ≡ at_most (view_precedence self) (view_precedence other) }
    {
        self.rank() <= other.rank()
    }

    pub fn is(self, other: Precedence) -> bool
        ensures { result ≡ same_precedence (view_precedence self) (view_precedence other) }
    {
        self.rank() == other.rank()
    }
}

impl BinaryOperator {
    /// Its precedence, which is that of its trees.
    pub fn precedence(self) -> Precedence
        ensures { view_precedence result ≡ operator_precedence (view_operator self) }
    {
        match self {
            BinaryOperator::Or => Precedence::Or,
            BinaryOperator::And => Precedence::And,
            BinaryOperator::Op(BinOp::Add) => Precedence::Sum,
            BinaryOperator::Op(BinOp::Sub) => Precedence::Sum,
            BinaryOperator::Op(_) => Precedence::Term,
        }
    }

    /// The precedence that its right operand has at least.
    pub fn right(self) -> Precedence
        ensures { view_precedence result ≡ operator_right (view_operator self) }
    {
        match self {
            BinaryOperator::Or => Precedence::And,
            BinaryOperator::And => Precedence::Not,
            BinaryOperator::Op(BinOp::Add) => Precedence::Term,
            BinaryOperator::Op(BinOp::Sub) => Precedence::Term,
            BinaryOperator::Op(_) => Precedence::Unary,
        }
    }
}
