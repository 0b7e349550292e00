//! The columns of a line.
ghost use Rattle.std.specs.Prelude.{◌≡◌, ◌≤◌, length, string_bytes, IfOk};
ghost use Rattle.std.specs.Str.{chars};
ghost use Rattle.cov_analysis.specs.Counts.{IsCounted};
ghost use Rattle.cov_text.specs.Report.{header, line, cells, row};

use crate::NoMemory;
use cov_analysis::Numbers;
use std::alloc::Global;

/// The places of the names, and whether the columns of branches stand.
#[derive(Clone, Copy)]
pub(crate) struct Columns {
    pub(crate) width: usize,
    pub(crate) arcs: bool,
}

impl Columns {
    /// The line above all others.
    pub(crate) fn header(self, alloc: Global, missing: bool) -> Result<String, NoMemory>
        ensures { IfOk result (λ text. string_bytes text ≡ header self.width self.arcs missing) }
    {
        let cells = if self.arcs {
            "  Stmts   Miss Branch BrPart  Cover"
        } else {
            "  Stmts   Miss  Cover"
        };
        line(
            alloc,
            self.width,
            "Name",
            cells,
            if missing { "Missing" } else { "" },
        )
    }

    /// A line of numbers.
    pub(crate) fn row(
        self,
        alloc: Global,
        name: &str,
        numbers: Numbers,
        note: &str,
    ) -> Result<String, NoMemory>
        requires { IsCounted numbers }
        ensures { IfOk result (λ text.
            string_bytes text ≡ row self.width self.arcs name.now numbers note.now) }
    {
        let cells = cells(alloc, self.arcs, numbers)?;
        line(alloc, self.width, name, cells.as_str(), note)
    }
}

/// The numbers, each on the right of its 7 places.
fn cells(alloc: Global, arcs: bool, numbers: Numbers) -> Result<String, NoMemory>
    requires { IsCounted numbers }
    ensures { IfOk result (λ text. string_bytes text ≡ cells arcs numbers) }
{
    let Numbers {
        statements,
        missing,
        branches,
        partial,
        ..
    } = numbers;
    let percent = numbers.percent();
    if arcs {
        return format!(in alloc;
            "{statements:>7}{missing:>7}{branches:>7}{partial:>7}{percent:>6}%"
        );
    }
    format!(in alloc; "{statements:>7}{missing:>7}{percent:>6}%")
}

/// A name on the left of its places, the other columns, and a note where there is one.
fn line(
    alloc: Global,
    width: usize,
    name: &str,
    cells: &str,
    note: &str,
) -> Result<String, NoMemory>
    ensures { IfOk result (λ text. string_bytes text ≡ line width name.now cells.now note.now) }
{
    let blanks = " ".repeat(alloc, width.saturating_sub(char_count(name)))?;
    if note.is_empty() {
        return format!(in alloc; "{name}{blanks}{cells}");
    }
    format!(in alloc; "{name}{blanks}{cells}   {note}")
}

/// How many characters a text has.
pub(crate) fn char_count(text: &str) -> usize
    ensures count { result ≡ length (chars text.now) }
    ensures bound { result ≤ length text.now }
{
    text.chars().count()
}
