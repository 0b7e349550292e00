//! The command `suite`: imports a file, tests it, writes how the tests ended and saves what they
//! took.
ghost use Rattle.std.specs.Prelude.{◌≡◌, option_map, string_bytes};
ghost use Rattle.cov_calls.specs.Views.{answered_view};
ghost use Rattle.cov_loaded_laws.specs.Loaded.{IsMeasurable};
ghost use Rattle.cov_programs.specs.Ends.{Follows};
ghost use Rattle.cov_programs.specs.Objects.{beside};
ghost use Rattle.cov_run.specs.Loads.{loaded_modules};
ghost use Rattle.cov_step.specs.Calls.{IsNoMemory, seen};
ghost use Rattle.cov_step.specs.Objects.{on_sink, on_vault};
ghost use Rattle.cov_step.specs.Testing.{suite, suite_answered, suite_by, suite_lines, tests_run};
ghost use Rattle.cov_streams.specs.Suites.{on_plugins};
ghost use Rattle.cov_suites.specs.Rests.{ended, targeted};
ghost use Rattle.cov_suites.specs.Views.{asked_view, on_suite, results_view, run_view};

use crate::lines::{counts_of, suite_lines};
use crate::requests::{SuiteWords, TestsRequest, request_of};
use crate::testing::tested;
use cov_calls::{Answered, Ended, own_name, save_last, settings, target, write};
use cov_contexts::Plugin;
use cov_outside::{Shelf, Sink};
use cov_run::Loaded;
use cov_runs::opened_as;
use cov_suite::{SuiteRun, TestResult};
use cov_vault::Vault;
use cov_why::Why;
use std::alloc::Global;

/// Tests the file of these words. The lines of its tests are written, and then the rows of the
/// import and of all tests are saved under the data file's name. What the program writes isn't.
pub fn suite<H: Shelf, V: Vault, O: Sink, P: Plugin>(
    alloc: Global,
    words: SuiteWords,
    shelf: &mut H,
    vault: &mut V,
    out: &mut O,
    plugins: &mut Vec<P>,
) -> Result<Answered, Why>
    ensures { Follows (on_suite H.Shelf V.Vault O.Sink P.Plugin) IsNoMemory
        (suite words.branch words.budget (option_map string_bytes words.data_file)
        (option_map string_bytes words.rcfile) (string_bytes words.file))
        ((shelf.old, vault.old), (out.old, plugins.old.items)) (seen answered_view result)
        ((shelf.new, vault.new), (out.new, plugins.new.items)) }
{
    let found = settings(alloc, words.rcfile.as_deref(), shelf)?;
    match own_name(alloc, words.data_file.as_deref(), &found) {
        Ok(own) => {
            let request = request_of(words.branch, words.budget, found);
            suite_by(
                alloc,
                own.as_str(),
                &request,
                words.file.as_str(),
                shelf,
                vault,
                out,
                plugins,
            )
        }
        Err(_) => Err(Why::NoMemory),
    }
}

/// Loads the file, and goes on.
fn suite_by<H: Shelf, V: Vault, O: Sink, P: Plugin>(
    alloc: Global,
    own: &str,
    request: &TestsRequest,
    file: &str,
    shelf: &mut H,
    vault: &mut V,
    out: &mut O,
    plugins: &mut Vec<P>,
) -> Result<Answered, Why>
    ensures { Follows (on_suite H.Shelf V.Vault O.Sink P.Plugin) IsNoMemory
        (suite_by own.now (asked_view request.now) file.now)
        ((shelf.old, vault.old), (out.old, plugins.old.items)) (seen answered_view result)
        ((shelf.new, vault.new), (out.new, plugins.new.items)) }
{
    let loaded = opened_as(alloc, "__tests__", file, shelf)?;
    targeted(alloc, own, request, file, &loaded, vault, out, plugins)
}

/// Looks at what the rows replace, and goes on.
fn targeted<V: Vault, O: Sink, P: Plugin>(
    alloc: Global,
    own: &str,
    request: &TestsRequest,
    file: &str,
    loaded: &Loaded,
    vault: &mut V,
    out: &mut O,
    plugins: &mut Vec<P>,
) -> Result<Answered, Why>
    requires { IsMeasurable loaded.now }
    ensures { Follows (beside (on_vault V.Vault) (beside (on_sink O.Sink) (on_plugins P.Plugin)))
        IsNoMemory (targeted own.now (asked_view request.now) file.now (loaded_modules loaded.now))
        (vault.old, (out.old, plugins.old.items)) (seen answered_view result)
        (vault.new, (out.new, plugins.new.items)) }
{
    let was = target(alloc, own, vault)?;
    drop(was);
    tests_run(alloc, own, request, file, loaded, vault, out, plugins)
}

/// Runs the import and the tests, and goes on.
fn tests_run<V: Vault, O: Sink, P: Plugin>(
    alloc: Global,
    own: &str,
    request: &TestsRequest,
    file: &str,
    loaded: &Loaded,
    vault: &mut V,
    out: &mut O,
    plugins: &mut Vec<P>,
) -> Result<Answered, Why>
    requires { IsMeasurable loaded.now }
    ensures { Follows (beside (on_vault V.Vault) (beside (on_sink O.Sink) (on_plugins P.Plugin)))
        IsNoMemory
        (tests_run own.now (asked_view request.now) file.now (loaded_modules loaded.now))
        (vault.old, (out.old, plugins.old.items)) (seen answered_view result)
        (vault.new, (out.new, plugins.new.items)) }
{
    let run = tested(alloc, request, file, loaded, plugins)?;
    ended(alloc, own, &run, vault, out)
}

/// Writes how the tests ended, and then saves their rows.
fn ended<V: Vault, O: Sink>(
    alloc: Global,
    own: &str,
    run: &SuiteRun,
    vault: &mut V,
    out: &mut O,
) -> Result<Answered, Why>
    ensures { Follows (beside (on_vault V.Vault) (on_sink O.Sink)) IsNoMemory
        (ended own.now (run_view run.now)) (vault.old, out.old) (seen answered_view result)
        (vault.new, out.new) }
{
    match suite_lines(alloc, &run.tests) {
        Ok(text) => ended_with(alloc, own, run, text.as_str(), vault, out),
        Err(_) => Err(Why::NoMemory),
    }
}

fn ended_with<V: Vault, O: Sink>(
    alloc: Global,
    own: &str,
    run: &SuiteRun,
    text: &str,
    vault: &mut V,
    out: &mut O,
) -> Result<Answered, Why>
    requires { text.now ≡ suite_lines (results_view run.now.tests.items) }
    ensures { Follows (beside (on_vault V.Vault) (on_sink O.Sink)) IsNoMemory
        (ended own.now (run_view run.now)) (vault.old, out.old) (seen answered_view result)
        (vault.new, out.new) }
{
    write(alloc, text.as_bytes(), out)?;
    save_last(alloc, own, &run.rows, answered_by(alloc, &run.tests), vault)
}

/// How the command ended, whatever became of the tests.
fn answered_by(alloc: Global, tests: &[TestResult]) -> Answered
    ensures { answered_view result ≡ suite_answered (results_view tests.now) }
{
    let counts = counts_of(tests);
    Answered {
        ended: Ended::Tests(counts.passed, counts.failed, counts.cut),
        ending: String::new(alloc),
    }
}
