//! The command `select`: loads both versions, runs the tests of the old one, and writes the names
//! of those of the new one that must run again.
ghost use Rattle.cov_calls.specs.Views.{answered_view};
ghost use Rattle.cov_loaded_laws.specs.Loaded.{IsMeasurable};
ghost use Rattle.cov_programs.specs.Ends.{Follows};
ghost use Rattle.cov_programs.specs.Objects.{beside, nobody};
ghost use Rattle.cov_run.specs.Loads.{IsCompiled, loaded_modules};
ghost use Rattle.cov_step.specs.Calls.{Call, Answer, IsNoMemory, seen};
ghost use Rattle.cov_step.specs.Objects.{on_shelf, on_sink};
ghost use Rattle.cov_step.specs.Selecting.{select, selected_in};
ghost use Rattle.cov_step.specs.Testing.{came_or};
ghost use Rattle.cov_streams.specs.Trials.{on_trial};
ghost use Rattle.cov_verdicts.specs.Regular.{AreRegular};
ghost use Rattle.cov_selects.specs.Rests.{after_old, selecting, selection_written};
ghost use Rattle.cov_selects.specs.Views.{came_of, selection_view};

use crate::choosing::{Selection, chosen_tests};
use crate::lines::selection_lines;
use cov_calls::{Answered, USUAL_STEPS, write_last};
use cov_outside::{Shelf, Sink};
use cov_run::Loaded;
use cov_runs::opened_as;
use cov_suite::SuiteError;
use cov_suites::import_failed;
use cov_why::Why;
use std::alloc::Global;

/// Runs the tests of the old file, and writes those of the new one that must run again. What the
/// program writes isn't written.
pub fn select<H: Shelf, O: Sink>(
    alloc: Global,
    budget: Option<u64>,
    old: &str,
    new: &str,
    shelf: &mut H,
    out: &mut O,
) -> Result<Answered, Why>
    ensures { Follows (beside (beside (on_shelf H.Shelf) on_trial) (on_sink O.Sink)) IsNoMemory
        (select budget «old».now «new».now) ((shelf.old, tt), out.old)
        (seen answered_view result) ((shelf.new, tt), out.new) }
{
    let before = opened_as(alloc, "__tests__", old, shelf)?;
    let most = budget.unwrap_or(USUAL_STEPS);
    select_after(alloc, most, old, &before, new, shelf, out)
}

/// Loads the new version, and goes on.
fn select_after<H: Shelf, O: Sink>(
    alloc: Global,
    most: u64,
    old: &str,
    before: &Loaded,
    new: &str,
    shelf: &mut H,
    out: &mut O,
) -> Result<Answered, Why>
    requires measurable { IsMeasurable before.now }
    requires regular { AreRegular (loaded_modules before.now) }
    ensures { Follows (beside (beside (on_shelf H.Shelf) on_trial) (on_sink O.Sink)) IsNoMemory
        (after_old most «old».now «new».now (loaded_modules before.now))
        ((shelf.old, tt), out.old) (seen answered_view result) ((shelf.new, tt), out.new) }
{
    let after = opened_as(alloc, "__tests__", new, shelf)?;
    selected(alloc, most, old, before, &after, out)
}

/// Runs the tests of the old version, and writes which of the new one must run again.
fn selected<O: Sink>(
    alloc: Global,
    most: u64,
    old: &str,
    before: &Loaded,
    after: &Loaded,
    out: &mut O,
) -> Result<Answered, Why>
    requires measurable { IsMeasurable before.now }
    requires regular { AreRegular (loaded_modules before.now) }
    requires some { IsMeasurable after.now }
    requires compiled { IsCompiled after.now }
    ensures { Follows (beside on_trial (on_sink O.Sink)) IsNoMemory
        (selected_in most «old».now (loaded_modules before.now) (loaded_modules after.now))
        (tt, out.old) (seen answered_view result) (tt, out.new) }
{
    let selection = chosen(alloc, most, old, before, after)?;
    write_selection(alloc, &selection, out)
}

/// Which tests of the new version must run again.
fn chosen(
    alloc: Global,
    most: u64,
    old: &str,
    before: &Loaded,
    after: &Loaded,
) -> Result<Selection, Why>
    requires measurable { IsMeasurable before.now }
    requires regular { AreRegular (loaded_modules before.now) }
    requires some { IsMeasurable after.now }
    requires compiled { IsCompiled after.now }
    ensures { Follows on_trial IsNoMemory
        (selecting most «old».now (loaded_modules before.now) (loaded_modules after.now)) tt
        (seen selection_view result) tt }
{
    came(alloc, old, chosen_tests(alloc, most, before, after))
}

/// What follows from the answer.
fn came(alloc: Global, file: &str, answer: Result<Selection, SuiteError>) -> Result<Selection, Why>
    ensures { Follows (nobody Call Answer) IsNoMemory (came_or file.now (came_of answer)) tt
        (seen selection_view result) tt }
{
    match answer {
        Ok(selection) => Ok(selection),
        Err(SuiteError::NotImported) => Err(import_failed(alloc, file)),
        Err(SuiteError::NoMemory) => Err(Why::NoMemory),
    }
}

/// Writes the names that were selected, as the last thing.
fn write_selection<O: Sink>(
    alloc: Global,
    selection: &Selection,
    out: &mut O,
) -> Result<Answered, Why>
    ensures { Follows (on_sink O.Sink) IsNoMemory (selection_written (selection_view selection.now))
        out.old (seen answered_view result) out.new }
{
    match selection_lines(alloc, selection) {
        Ok(text) => write_last(alloc, text.as_bytes(), Answered::done(alloc), out),
        Err(_) => Err(Why::NoMemory),
    }
}
