//! The command `mutate`.
ghost use Rattle.cov_calls.specs.Views.{answered_view};
ghost use Rattle.cov_loaded_laws.specs.Loaded.{IsMeasurable};
ghost use Rattle.cov_mutates.specs.Rests.{written};
ghost use Rattle.cov_mutates.specs.Views.{judged_views};
ghost use Rattle.cov_programs.specs.Ends.{Follows};
ghost use Rattle.cov_programs.specs.Objects.{beside};
ghost use Rattle.cov_run.specs.Loads.{IsCompiled, loaded_modules};
ghost use Rattle.cov_step.specs.Calls.{IsNoMemory, seen};
ghost use Rattle.cov_step.specs.Mutating.{judged_in, mutate};
ghost use Rattle.cov_step.specs.Objects.{on_shelf, on_sink};
ghost use Rattle.cov_streams.specs.Trials.{on_trial};
ghost use Rattle.cov_verdicts.specs.Regular.{AreRegular};

use crate::judging::judging;
use crate::lines::mutation_lines;
use cov_calls::{Answered, USUAL_STEPS, write_last};
use cov_mutate::Judged;
use cov_outside::{Shelf, Sink};
use cov_run::Loaded;
use cov_runs::opened_as;
use cov_why::Why;
use py_code::Programs;
use std::alloc::Global;

/// Runs the tests of the file for each mutant of its modules that they reach, and writes what they
/// notice. What the program writes isn't written.
pub fn mutate<H: Shelf, O: Sink>(
    alloc: Global,
    budget: Option<u64>,
    file: &str,
    shelf: &mut H,
    out: &mut O,
) -> Result<Answered, Why>
    ensures { Follows (beside (beside (on_shelf H.Shelf) on_trial) (on_sink O.Sink)) IsNoMemory
        (mutate budget file.now) ((shelf.old, tt), out.old) (seen answered_view result)
        ((shelf.new, tt), out.new) }
{
    let loaded = opened_as(alloc, "__tests__", file, shelf)?;
    judged_in(alloc, budget.unwrap_or(USUAL_STEPS), file, &loaded, out)
}

/// Judges the mutants of a loaded file, and goes on.
fn judged_in<O: Sink>(
    alloc: Global,
    budget: u64,
    file: &str,
    loaded: &Loaded,
    out: &mut O,
) -> Result<Answered, Why>
    requires compiled { IsCompiled loaded.now }
    requires measurable { IsMeasurable loaded.now }
    requires regular { AreRegular (loaded_modules loaded.now) }
    ensures { Follows (beside on_trial (on_sink O.Sink)) IsNoMemory
        (judged_in budget file.now (loaded_modules loaded.now)) (tt, out.old)
        (seen answered_view result) (tt, out.new) }
{
    let judged = judging(alloc, budget, file, loaded)?;
    written(alloc, &loaded.programs, &judged, out)
}

/// Writes a line for each mutant, and that of their counts.
fn written<O: Sink>(
    alloc: Global,
    programs: &Programs,
    judged: &[Judged],
    out: &mut O,
) -> Result<Answered, Why>
    ensures { Follows (on_sink O.Sink) IsNoMemory (written (judged_views programs.now judged.now))
        out.old (seen answered_view result) out.new }
{
    match mutation_lines(alloc, programs, judged) {
        Ok(text) => write_last(alloc, text.as_bytes(), Answered::done(alloc), out),
        Err(_) => Err(Why::NoMemory),
    }
}
