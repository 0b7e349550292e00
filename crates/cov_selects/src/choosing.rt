//! Which tests of a new version must run again, after those of the old one.
ghost use Rattle.std.specs.Prelude.{◌≡◌, map, string_bytes, encode_utf8_all, IfOk, MatchResult};
ghost use Rattle.cov_loaded_laws.specs.Loaded.{IsMeasurable};
ghost use Rattle.cov_run.specs.Loads.{IsCompiled, loaded_modules};
ghost use Rattle.cov_streams.specs.Retests.{SelectedAs};
ghost use Rattle.cov_suite.specs.Tests.{tests_of};
ghost use Rattle.cov_verdicts.specs.Regular.{AreRegular};
ghost use Rattle.cov_selects.specs.Views.{IsSelected, came_of};

use cov_event::ContextPlugin;
use cov_run::Loaded;
use cov_select::{changed_by_path, chosen_in_suite, select};
use cov_suite::{SuiteError, SuiteRun, tests_of_script};
use cov_suites::loaded_suite;
use py_text::{NoMemory, Text};
use std::alloc::Global;

/// The names of the tests that must run again, in their order, and how many tests there are.
#[derive(Drop)]
pub(crate) struct Selection {
    pub names: Vec<String>,
    pub count: usize,
}

/// Runs the tests of the old version, and selects those of the new one that must run again. No
/// plugin is asked, and the arcs that the tests took are kept.
pub(crate) fn chosen_tests(
    alloc: Global,
    most: u64,
    before: &Loaded,
    after: &Loaded,
) -> Result<Selection, SuiteError>
    requires measurable { IsMeasurable before.now }
    requires regular { AreRegular (loaded_modules before.now) }
    requires some { IsMeasurable after.now }
    requires compiled { IsCompiled after.now }
    ensures { SelectedAs most (loaded_modules before.now) (loaded_modules after.now)
        (came_of result) }
{
    chosen_in_suite::<Box<dyn ContextPlugin>>();
    let mut plugins: Vec<Box<dyn ContextPlugin>> = Vec::new(alloc);
    match loaded_suite(alloc, before, "", true, most, &mut plugins) {
        Ok(run) => selection_of(alloc, &run, before, after),
        Err(error) => Err(error),
    }
}

/// Selects those tests of the new version, after this run of the old one's.
fn selection_of(
    alloc: Global,
    run: &SuiteRun,
    before: &Loaded,
    after: &Loaded,
) -> Result<Selection, SuiteError>
    requires some { IsMeasurable after.now }
    requires compiled { IsCompiled after.now }
    ensures { MatchResult result (IsSelected run.now (loaded_modules before.now)
        (loaded_modules after.now)) (λ e. e ≡ SuiteError.NoMemory) }
{
    match selected(alloc, run, before, after) {
        Ok(selection) => Ok(selection),
        Err(_) => Err(SuiteError::NoMemory),
    }
}

fn selected(
    alloc: Global,
    run: &SuiteRun,
    before: &Loaded,
    after: &Loaded,
) -> Result<Selection, NoMemory>
    requires some { IsMeasurable after.now }
    requires compiled { IsCompiled after.now }
    ensures { IfOk result (IsSelected run.now (loaded_modules before.now)
        (loaded_modules after.now)) }
{
    let changed = changed_by_path(
        alloc,
        &before.programs,
        &before.modules,
        &after.programs,
        &after.modules,
    )?;
    let tests = test_names(alloc, after)?;
    let names = select(alloc, run, &changed, &tests)?;
    Ok(Selection {
        names,
        count: tests.len(),
    })
}

/// The names of the tests of a loaded program.
fn test_names(alloc: Global, loaded: &Loaded) -> Result<Vec<String>, NoMemory>
    requires some { IsMeasurable loaded.now }
    requires compiled { IsCompiled loaded.now }
    ensures { IfOk result (λ names. map string_bytes names.items
        ≡ map encode_utf8_all (tests_of (loaded_modules loaded.now))) }
{
    let tests = tests_of_script(alloc, &loaded.programs)?;
    strings(alloc, &tests)
}

/// Texts in UTF-8.
fn strings(alloc: Global, texts: &[Text]) -> Result<Vec<String>, NoMemory>
    ensures { IfOk result (λ strings. map string_bytes strings.items
        ≡ map encode_utf8_all texts.now) }
{
    let mut strings = Vec::new(alloc);
    for text in texts {
        strings.push(String::from_str(alloc, text.as_str())?)?;
    }
    Ok(strings)
}
