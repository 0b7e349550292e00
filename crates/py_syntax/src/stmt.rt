// Statements, suites and modules.

use crate::expr::Expr;
use crate::pattern::Pattern;
use py_operator::BinOp;
use py_text::Text;

/// A statement with the first line of its first token and the last line of its last one, counted
/// from 1. The last line of a statement with a block suite is that of the line after it: nothing
/// should use it.
#[cycle(stmt)]
#[derive(Drop)]
pub struct Stmt {
    pub first: u32,
    pub last: u32,
    pub kind: StmtKind,
    pub end: LineEnd,
}

/// What was written after a simple statement. Nothing stands after a compound one.
#[derive(Clone, Copy)]
pub struct LineEnd {
    pub semicolon: bool,
    pub newline: bool,
}

/// Statements with the first and last line of the header in front of them, from 1.
#[cycle(stmt)]
pub struct Suite {
    pub first: u32,
    pub last: u32,
    /// Whether it stands on the line of its header, and isn't a block.
    pub inline: bool,
    pub body: Vec<Stmt>,
}

// As of `Expr`: letting a suite go is one call.
impl Drop for Suite {
    #[cycle(stmt)]
    fn drop(self) {
        let Suite {
            first: _,
            last: _,
            inline: _,
            body,
        } = self;
        drop(body)
    }
}

/// A test of an `if` or `elif` and its suite.
#[cycle(stmt)]
#[derive(Drop)]
pub struct Arm {
    pub test: Expr,
    pub body: Suite,
}

/// An `except` clause. One without a kind has no name.
#[cycle(stmt)]
#[derive(Drop)]
pub struct Clause {
    pub kind: Option<Expr>,
    pub name: Option<Text>,
    pub body: Suite,
}

/// A `case`.
#[cycle(stmt)]
#[derive(Drop)]
pub struct Case {
    pub pattern: Pattern,
    pub guard: Option<Expr>,
    pub body: Suite,
}

/// An imported name, and the name after its `as`.
#[derive(Drop)]
pub struct Alias {
    pub name: Text,
    pub bound: Option<Text>,
}

#[cycle(stmt)]
#[derive(Drop)]
pub enum StmtKind {
    Expr(Expr),
    /// Each target has the form of one: a name, an index, or these in brackets and with commas.
    Assign {
        targets: Vec<Expr>,
        value: Expr,
    },
    /// The place is a name or an index.
    AugAssign {
        place: Expr,
        op: BinOp,
        value: Expr,
    },
    Pass,
    Break,
    Continue,
    Return(Option<Expr>),
    Raise(Option<Expr>),
    Assert(Expr, Option<Expr>),
    Global(Vec<Text>),
    Import(Vec<Alias>),
    From(Text, Vec<Alias>),
    If {
        arms: Vec<Arm>,
        orelse: Option<Suite>,
    },
    While {
        test: Expr,
        body: Suite,
        orelse: Option<Suite>,
    },
    For {
        target: Expr,
        over: Expr,
        body: Suite,
        orelse: Option<Suite>,
    },
    Try {
        body: Suite,
        clauses: Vec<Clause>,
        orelse: Option<Suite>,
        finally: Option<Suite>,
    },
    Def {
        name: Text,
        params: Vec<Text>,
        /// One for each of the last parameters.
        defaults: Vec<Expr>,
        comma: bool,
        body: Suite,
    },
    Match {
        subject: Expr,
        /// The last line of its header, whose first line is the statement's.
        header_last: u32,
        cases: Vec<Case>,
    },
}

#[derive(Drop)]
pub struct Module {
    pub body: Vec<Stmt>,
}
