//! Statements as a machine reads them: what each token makes of a state. Expressions and patterns
//! are given whole.
#![tactic(auto)]

mod after_expression;
mod after_suite;
mod in_statement;
mod kinds;
mod lists;
mod match_headers;
mod names;
mod places;
mod purposes;
mod statement_end;
mod statement_start;
mod steps;
mod suite_of;
mod suite_stack;
mod targets;

pub use after_expression::resume_pattern;
pub use match_headers::is_header;
pub use places::{State, Turn};
pub use purposes::Continuation;
pub use steps::{begun, step};
pub use suite_of::PartialMatch;
pub use suite_stack::{Span, SuiteStack};
