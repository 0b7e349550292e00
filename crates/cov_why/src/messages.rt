//! The texts of answers on standard error.
ghost use Rattle.std.specs.Prelude.{◌≡◌, IfOk, string_bytes};
ghost use Rattle.cov_why.specs.Answers.{plain_why};
ghost use Rattle.cov_why.specs.Messages.{bad_data_text, kind_text, limit_text, message_of, rows_text, setting_text};

use crate::why::{BadKind, LimitKind, SyntaxKind, Why};
use std::alloc::{AllocError, Global};

impl Why {
    /// The line that the answer writes, with its end, or nothing. `ending` is what the ending of a
    /// program writes, or the percent that was asked for.
    pub fn message(&self, alloc: Global, ending: &str) -> Result<String, AllocError>
        ensures { IfOk result (λ line.
            string_bytes line ≡ message_of (plain_why self.now) ending.now) }
    {
        match self {
            Why::Done | Why::Tests(..) => Ok(String::new(alloc)),
            Why::Program(_) => String::from_str(alloc, ending),
            Why::Budget(n) => format!(in alloc; "coverage: budget of {n} steps is spent\n"),
            Why::Under(covered, all) => {
                format!(in alloc;
                    "coverage: {covered} of {all} covered is under {ending} percent\n"
                )
            }
            Why::Usage(i) => format!(in alloc; "coverage: usage: stopped after {i} words\n"),
            Why::NoSuchFile(name) => format!(in alloc; "coverage: no file {name}\n"),
            Why::Syntax(file, line, kind) => {
                let kind = kind_text(*kind);
                format!(in alloc; "coverage: {file}:{line}: {kind}\n")
            }
            Why::Limit(kind, n) => {
                let kind = limit_text(*kind);
                format!(in alloc; "coverage: limit {kind} passed: {n}\n")
            }
            Why::BadConfig(key) => setting_text(alloc, key.as_str()),
            Why::BadPattern(i) => format!(in alloc; "coverage: bad pattern {i}\n"),
            Why::PatternSize(i) => format!(in alloc; "coverage: pattern {i} is too large\n"),
            Why::NoFunction(name) => format!(in alloc; "coverage: no function {name}\n"),
            Why::NoData(name) => format!(in alloc; "coverage: no data {name}\n"),
            Why::Mixed(one, other) => {
                let (one, other) = (rows_text(*one), rows_text(*other));
                format!(in alloc; "coverage: cannot join {one} with {other}\n")
            }
            Why::BadData(name, kind) => bad_data(alloc, name.as_str(), *kind),
            Why::NoSource(path) => format!(in alloc; "coverage: no source {path}\n"),
            Why::ReadFault => String::from_str(alloc, "coverage: reading input failed\n"),
            Why::WriteFault => String::from_str(alloc, "coverage: writing output failed\n"),
            Why::ShelfFault => String::from_str(alloc, "coverage: files failed\n"),
            Why::VaultFault => String::from_str(alloc, "coverage: data store failed\n"),
            Why::NoMemory => String::from_str(alloc, "coverage: no memory\n"),
            Why::ImportFailed(file) => format!(in alloc;
                "coverage: import of {file} ended early\n"
            ),
        }
    }
}

fn setting_text(alloc: Global, key: &str) -> Result<String, AllocError>
    ensures { IfOk result (λ line. string_bytes line ≡ setting_text key.now) }
{
    if key.is_empty() {
        return String::from_str(alloc, "coverage: bad settings file\n");
    }
    format!(in alloc; "coverage: bad setting {key}\n")
}

fn bad_data(alloc: Global, name: &str, kind: BadKind) -> Result<String, AllocError>
    ensures { IfOk result (λ line.
        string_bytes line ≡ bad_data_text name.now kind) }
{
    match kind {
        BadKind::NotSchema7 => format!(in alloc; "coverage: bad data {name}: not schema 7\n"),
        BadKind::BadRow(i) => format!(in alloc; "coverage: bad data {name}: row {i}\n"),
    }
}

fn rows_text(arcs: bool) -> &'static str
    ensures { result.now ≡ rows_text arcs }
{
    if arcs { "arcs" } else { "lines" }
}

fn kind_text(kind: SyntaxKind) -> &'static str
    ensures { result.now ≡ kind_text kind }
{
    match kind {
        SyntaxKind::BadCharacter => "BadCharacter",
        SyntaxKind::BadIndent => "BadIndent",
        SyntaxKind::OpenString => "OpenString",
        SyntaxKind::OpenBracket => "OpenBracket",
        SyntaxKind::WideNumber => "WideNumber",
        SyntaxKind::Unexpected => "Unexpected",
        SyntaxKind::BreakOutside => "BreakOutside",
        SyntaxKind::ReturnOutside => "ReturnOutside",
        SyntaxKind::GlobalAfterUse => "GlobalAfterUse",
        SyntaxKind::NestedFunction => "NestedFunction",
        SyntaxKind::EarlyIrrefutable => "EarlyIrrefutable",
        SyntaxKind::TwiceNamed => "TwiceNamed",
    }
}

fn limit_text(kind: LimitKind) -> &'static str
    ensures { result.now ≡ limit_text kind }
{
    match kind {
        LimitKind::FileBytes => "FileBytes",
        LimitKind::TotalBytes => "TotalBytes",
        LimitKind::Lines => "Lines",
        LimitKind::Modules => "Modules",
        LimitKind::Expressions => "Expressions",
        LimitKind::Suites => "Suites",
        LimitKind::Patterns => "Patterns",
        LimitKind::PatternBytes => "PatternBytes",
    }
}
