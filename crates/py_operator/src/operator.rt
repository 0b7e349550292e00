// The operators of the language.

/// An arithmetic operator: `+`, `-`, `*`, `//`, `%`.
#[derive(Clone, Copy)]
pub enum BinOp {
    Add,
    Sub,
    Mul,
    Floor,
    Mod,
}

/// A comparison: `==`, `!=`, `<`, `<=`, `>`, `>=`, `in`, `not in`.
#[derive(Clone, Copy)]
pub enum CmpOp {
    Eq,
    Ne,
    Lt,
    Le,
    Gt,
    Ge,
    In,
    NotIn,
}
