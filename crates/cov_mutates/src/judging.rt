//! The verdicts of the mutants of a loaded program.
ghost use Rattle.py_code.specs.declared.code.Programs.{Programs};
ghost use Rattle.cov_loaded_laws.specs.Loaded.{IsMeasurable};
ghost use Rattle.cov_mutates.specs.Rests.{judging};
ghost use Rattle.cov_mutates.specs.Views.{came_by, mutants_view};
ghost use Rattle.cov_programs.specs.Ends.{Follows};
ghost use Rattle.cov_programs.specs.Objects.{nobody};
ghost use Rattle.cov_run.specs.Loads.{IsCompiled, loaded_modules};
ghost use Rattle.cov_step.specs.Calls.{Call, Answer, IsNoMemory, seen};
ghost use Rattle.cov_step.specs.Testing.{came_or};
ghost use Rattle.cov_streams.specs.Trials.{on_trial};
ghost use Rattle.cov_verdicts.specs.Regular.{AreRegular};

use cov_mutate::{Judged, mutate};
use cov_run::Loaded;
use cov_suite::SuiteError;
use cov_suites::import_failed;
use cov_why::Why;
use std::alloc::Global;

/// Runs the tests of a loaded file, and for each mutant of its modules that they reach once more.
pub(crate) fn judging(
    alloc: Global,
    budget: u64,
    file: &str,
    loaded: &Loaded,
) -> Result<Vec<Judged>, Why>
    requires compiled { IsCompiled loaded.now }
    requires measurable { IsMeasurable loaded.now }
    requires regular { AreRegular (loaded_modules loaded.now) }
    ensures { Follows on_trial IsNoMemory (judging budget file.now (loaded_modules loaded.now)) tt
        (seen (mutants_view loaded.now.programs) result) tt }
{
    came(
        alloc,
        file,
        mutate(alloc, &loaded.modules, &loaded.programs, budget),
    )
}

/// What follows from the answer.
fn came(
    alloc: Global,
    file: &str,
    answer: Result<Vec<Judged>, SuiteError>,
) -> Result<Vec<Judged>, Why>
    ensures { (programs : Programs) → Follows (nobody Call Answer) IsNoMemory
        (came_or file.now (came_by programs answer)) tt (seen (mutants_view programs) result) tt }
{
    match answer {
        Ok(judged) => Ok(judged),
        Err(SuiteError::NotImported) => Err(import_failed(alloc, file)),
        Err(SuiteError::NoMemory) => Err(Why::NoMemory),
    }
}
