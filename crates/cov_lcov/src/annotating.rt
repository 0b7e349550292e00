//! The lines of a source with their marks.
ghost use Rattle.std.specs.Prelude.{◌≡◌, ℕ, IfOk, string_bytes};
ghost use Rattle.std.specs.BTreeSet.{contains};
ghost use Rattle.std.specs.Ordering.{nat_cmp};
ghost use Rattle.std.specs.Str.Lines.{lines};
ghost use Rattle.cov_analysis.specs.Analyses.{analysis_view};
ghost use Rattle.cov_analysis.specs.Lines.{is_among};
ghost use Rattle.cov_lcov.specs.Annotated.{annotated_bytes, annotated_from, annotated_line};
ghost use Rattle.cov_lcov.specs.Views.{mark_in, texts_view};

use cov_analysis::Analysis;
use py_text::NoMemory;
use std::alloc::Global;
use std::collections::BTreeSet;

/// The lines of an analysis, which count from 1. They needn't be in order.
#[derive(Drop)]
struct Marks {
    missing: BTreeSet<usize>,
    statements: BTreeSet<usize>,
    excluded: BTreeSet<usize>,
}

/// The source with a mark and a blank in front of each line: `>` for an executed statement line,
/// `!` for a missing one, `-` for an excluded one, and a blank for any other line.
///
/// Each line of the text ends with a line feed, also where the source has another line end or none.
pub fn annotate(alloc: Global, file: &Analysis, source: &str) -> Result<String, NoMemory>
    ensures { IfOk result (λ text.
        string_bytes text ≡ annotated_bytes (analysis_view file.now) source.now) }
{
    let texts = texts(alloc, source)?;
    let missing = set_of(alloc, &file.missing)?;
    let statements = set_of(alloc, &file.statements)?;
    let excluded = set_of(alloc, &file.excluded)?;
    let marks = Marks {
        missing,
        statements,
        excluded,
    };
    annotated(alloc, &marks, &texts)
}

fn texts<'s>(alloc: Global, source: &'s str) -> Result<Vec<&'s str>, NoMemory>
    ensures { IfOk result (λ texts. texts_view texts.items ≡ lines source.now) }
{
    source.lines().collect(alloc)
}

fn set_of(alloc: Global, lines: &[u32]) -> Result<BTreeSet<usize>, NoMemory>
    ensures { IfOk result (λ set.
        (line : ℕ) → contains nat_cmp set line ≡ is_among lines.now line) }
{
    let mut set = BTreeSet::new(alloc);
    for line in lines {
        set.insert(*line as usize)?;
    }
    Ok(set)
}

fn annotated(alloc: Global, marks: &Marks, texts: &[&str]) -> Result<String, NoMemory>
    ensures { IfOk result (λ text.
        string_bytes text ≡ annotated_from (mark_in marks.now) 1 (texts_view texts.now)) }
{
    let mut text = String::new(alloc);
    for at in 0..texts.len() {
        let line = annotated_line(alloc, mark(marks, at + 1), texts[at])?;
        text.push_str(line.as_str())?;
    }
    Ok(text)
}

fn annotated_line(alloc: Global, mark: &str, text: &str) -> Result<String, NoMemory>
    ensures { IfOk result (λ line. string_bytes line ≡ annotated_line mark.now text.now) }
{
    format!(in alloc; "{mark} {text}\n")
}

fn mark(marks: &Marks, line: usize) -> &'static str
    ensures { result.now ≡ mark_in marks.now line }
{
    if marks.missing.contains(&line) {
        return "!";
    }
    if marks.statements.contains(&line) {
        return ">";
    }
    if marks.excluded.contains(&line) {
        return "-";
    }
    " "
}
