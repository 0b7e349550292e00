//! The trees of a source text.
#![tactic(auto)]

pub mod expr;
pub mod pattern;
pub mod stmt;

pub use expr::{Comparison, Expr, FormatPart, Fragment, Link, Pair, Sign};
pub use pattern::{Brackets, Constant, Pattern};
pub use stmt::{Alias, Arm, Case, Clause, LineEnd, Module, Stmt, StmtKind, Suite};

/// The most nodes of an expression or a pattern above each other.
pub const HEIGHT_LIMIT: usize = 200;

/// The most suites inside each other.
pub const NESTING_LIMIT: usize = 64;
