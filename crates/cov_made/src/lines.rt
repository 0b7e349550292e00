//! The line of a source that is made up.
ghost use Rattle.std.specs.Prelude.{◌≡◌, IfOk, length, string_bytes};
ghost use Rattle.std.specs.Str.{chars};
ghost use Rattle.cov_analysis.specs.Analyses.{IsReportable, analysis_view};
ghost use Rattle.cov_analysis.specs.Counts.{IsCounted};
ghost use Rattle.cov_calls.specs.Views.{answered_view, lists_view};
ghost use Rattle.cov_data.specs.Rows.{arcs_of};
ghost use Rattle.cov_made.specs.Sources.{IsMade};
ghost use Rattle.cov_made.specs.Texts.{branches_text, run_text, source_text, statements_text};
ghost use Rattle.cov_made.specs.Views.{ran_view, source_view};
ghost use Rattle.cov_programs.specs.Ends.{Follows};
ghost use Rattle.cov_step.specs.Calls.{IsNoMemory, seen};
ghost use Rattle.cov_step.specs.Making.{make_line, made_line, made_path};
ghost use Rattle.cov_step.specs.Objects.{on_sink};
ghost use Rattle.cov_step.specs.Phases.{analysed, done, write_last};

use crate::sources::{MADE_PATH, MadeSource};
use cov_analysis::{Analysis, Numbers, analyse};
use cov_calls::{Answered, PatternLists, write_last};
use cov_measure::Measured;
use cov_outside::Sink;
use cov_why::Why;
use py_text::NoMemory;
use py_token::count_lines;
use std::alloc::Global;

/// Writes the line of a source by its run.
pub(crate) fn write_line<O: Sink>(
    alloc: Global,
    seed: u64,
    size: u32,
    patterns: &PatternLists,
    source: &MadeSource,
    ran: &Measured,
    out: &mut O,
) -> Result<Answered, Why>
    requires { IsMade source.now }
    ensures { Follows (on_sink O.Sink) IsNoMemory
        (write_last (made_line seed size (lists_view patterns.now) (source_view source.now)
        (ran_view ran.now)) done) out.old (seen answered_view result) out.new }
{
    match made_line(alloc, seed, size, patterns, source, ran) {
        Ok(line) => {
            let answered = Answered::done(alloc);
            write_last(alloc, line.as_bytes(), answered, out)
        }
        Err(_) => Err(Why::NoMemory),
    }
}

/// What a report counts of a source and of its run, as a line.
fn made_line(
    alloc: Global,
    seed: u64,
    size: u32,
    patterns: &PatternLists,
    source: &MadeSource,
    ran: &Measured,
) -> Result<String, NoMemory>
    requires { IsMade source.now }
    ensures { IfOk result (λ line. string_bytes line ≡ made_line seed size
        (lists_view patterns.now) (source_view source.now) (ran_view ran.now)) }
{
    let lines = count_lines(source.text.as_str());
    let analysis = analysed(alloc, patterns, source, ran)?;
    let arcs = ran.rows.arcs(MADE_PATH)?;
    line_of(alloc, seed, size, lines, &analysis, arcs.len(), ran.steps)
}

/// The analysis of a source by its run.
fn analysed(
    alloc: Global,
    patterns: &PatternLists,
    source: &MadeSource,
    ran: &Measured,
) -> Result<Analysis, NoMemory>
    requires { IsMade source.now }
    ensures analysis { IfOk result (λ a. analysis_view a
        ≡ analysed (lists_view patterns.now) ran.now.rows (source_view source.now)) }
    ensures reportable { IfOk result (λ a. IsReportable (analysis_view a)) }
{
    analyse(
        alloc,
        source.module(),
        source.text.as_str(),
        &patterns.exclude,
        &patterns.partial,
        &ran.rows,
        MADE_PATH,
    )
}

/// The line of an analysis.
fn line_of(
    alloc: Global,
    seed: u64,
    size: u32,
    lines: usize,
    analysis: &Analysis,
    arcs: usize,
    steps: u64,
) -> Result<String, NoMemory>
    requires { IsReportable (analysis_view analysis.now) }
    ensures { IfOk result (λ line. string_bytes line
        ≡ make_line seed size lines (analysis_view analysis.now) arcs steps) }
{
    let source = source_text(alloc, seed, size, lines)?;
    let statements = statements_text(alloc, &analysis.numbers)?;
    let branches = branches_text(alloc, &analysis.numbers)?;
    let run = run_text(alloc, arcs, steps)?;
    format!(in alloc; "{source}{statements}{branches}{run}")
}

fn source_text(alloc: Global, seed: u64, size: u32, lines: usize) -> Result<String, NoMemory>
    ensures { IfOk result (λ text. string_bytes text ≡ source_text seed size lines) }
{
    format!(in alloc; "make {seed} {size}: {lines} lines, ")
}

fn statements_text(alloc: Global, numbers: &Numbers) -> Result<String, NoMemory>
    ensures { IfOk result (λ text. string_bytes text ≡ statements_text numbers.now) }
{
    let (statements, missing) = (numbers.statements, numbers.missing);
    format!(in alloc; "{statements} statements, {missing} missing, ")
}

fn branches_text(alloc: Global, numbers: &Numbers) -> Result<String, NoMemory>
    requires { IsCounted numbers.now }
    ensures { IfOk result (λ text. string_bytes text ≡ branches_text numbers.now) }
{
    let (branches, partial) = (numbers.branches, numbers.partial);
    let percent = numbers.percent();
    format!(in alloc; "{branches} branches, {partial} partial, {percent}%, ")
}

fn run_text(alloc: Global, arcs: usize, steps: u64) -> Result<String, NoMemory>
    ensures { IfOk result (λ text. string_bytes text ≡ run_text arcs steps) }
{
    format!(in alloc; "{arcs} arcs, {steps} steps\n")
}
