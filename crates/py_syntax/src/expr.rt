// Expressions. A target of an assignment is an expression of a narrower form.

use py_operator::{BinOp, CmpOp};
use py_text::Text;

/// An expression, as it was written: a parenthesis is a node, and `comma` says whether a comma
/// stands after the last item.
#[cycle(expr)]
pub enum Expr {
    Name(Text),
    Int(i64),
    /// Neighbouring plain strings, which are one string.
    Str(Vec<Text>),
    /// Neighbouring strings with at least one f-string among them.
    FStr(Vec<Fragment>),
    None,
    Bool(bool),
    /// Items with commas, in no brackets of their own; or `()`, which has no items.
    Tuple {
        items: Vec<Expr>,
        comma: bool,
    },
    List {
        items: Vec<Expr>,
        comma: bool,
    },
    Dict {
        items: Vec<Pair>,
        comma: bool,
    },
    Paren(Box<Expr>),
    Not(Box<Expr>),
    And(Box<Expr>, Box<Expr>),
    Or(Box<Expr>, Box<Expr>),
    Unary(Sign, Box<Expr>),
    Binary(BinOp, Box<Expr>, Box<Expr>),
    /// A chain of comparisons: the first operand, and then each operator with its right operand.
    Compare(Box<Expr>, Vec<Link>),
    /// `body if test else orelse`.
    Cond {
        body: Box<Expr>,
        test: Box<Expr>,
        orelse: Box<Expr>,
    },
    Call {
        callee: Box<Expr>,
        args: Vec<Expr>,
        comma: bool,
    },
    Index(Box<Expr>, Box<Expr>),
    Slice {
        of: Box<Expr>,
        from: Option<Box<Expr>>,
        to: Option<Box<Expr>>,
    },
    Attr(Box<Expr>, Text),
}

// Written out, and not derived, so that letting an expression go is one call wherever that happens.
impl Drop for Expr {
    #[cycle(expr)]
    fn drop(self) {
        match self {
            Expr::Name(name) => drop(name),
            Expr::Int(_) => (),
            Expr::Str(texts) => drop(texts),
            Expr::FStr(fragments) => drop(fragments),
            Expr::None => (),
            Expr::Bool(_) => (),
            Expr::Tuple { items, comma: _ } => drop(items),
            Expr::List { items, comma: _ } => drop(items),
            Expr::Dict { items, comma: _ } => drop(items),
            Expr::Paren(inner) => drop(inner),
            Expr::Not(operand) => drop(operand),
            Expr::And(left, right) => {
                drop(left);
                drop(right)
            }
            Expr::Or(left, right) => {
                drop(left);
                drop(right)
            }
            Expr::Unary(_, operand) => drop(operand),
            Expr::Binary(_, left, right) => {
                drop(left);
                drop(right)
            }
            Expr::Compare(first, links) => {
                drop(first);
                drop(links)
            }
            Expr::Cond { body, test, orelse } => {
                drop(body);
                drop(test);
                drop(orelse)
            }
            Expr::Call {
                callee,
                args,
                comma: _,
            } => {
                drop(callee);
                drop(args)
            }
            Expr::Index(of, at) => {
                drop(of);
                drop(at)
            }
            Expr::Slice { of, from, to } => {
                drop(of);
                drop(from);
                drop(to)
            }
            Expr::Attr(of, name) => {
                drop(of);
                drop(name)
            }
        }
    }
}

/// A key of a dict display and its value.
#[cycle(expr)]
#[derive(Drop)]
pub struct Pair {
    pub key: Expr,
    pub value: Expr,
}

/// One comparison of a chain.
#[cycle(expr)]
#[derive(Drop)]
pub struct Link {
    pub op: Comparison,
    pub right: Expr,
}

/// One of the neighbouring strings of an `FStr`.
#[cycle(expr)]
#[derive(Drop)]
pub enum Fragment {
    Plain(Text),
    Format(Vec<FormatPart>),
}

/// A part of an f-string.
#[cycle(expr)]
#[derive(Drop)]
pub enum FormatPart {
    Chars(Text),
    Field(Expr),
}

/// What one comparison of a chain asks.
#[derive(Clone, Copy)]
pub enum Comparison {
    Op(CmpOp),
    Is,
    IsNot,
}

/// The operator of a `Unary`.
#[derive(Clone, Copy)]
pub enum Sign {
    Minus,
    Plus,
}
