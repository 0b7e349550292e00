//! The code of expressions, targets and patterns: definitions, and a law over them.
#![tactic(auto)]

mod cells;
mod expr_sizes;
mod expressions;
mod operators;
mod patterns;
mod site;
mod targets;
mod texts;

ghost use Rattle.py_compile_expr.specs.Laws.{SizesHold};
ghost use Rattle.py_compile_expr.specs.Runs.{ExpressionsRun};

pub use cells::{Builder, Cell, Guard, Op, sum};
pub use expr_sizes::{each_size, expr_size};
pub use expressions::{over, put_each, put_expr};
pub use operators::{count, number};
pub use patterns::{captures, pattern_size, push_captured, put_names, put_pattern};
pub use site::Site;
pub use targets::{all_size, put_all, put_target, target_size};

/// Code is as long as its size says.
pub fn sizes_hold()
    ensures { SizesHold }
{}

/// A machine that runs the code of an expression gives what the expression means.
pub fn expressions_run()
    ensures { ExpressionsRun }
{}
