//! What tests are asked: words go before settings.
ghost use Rattle.std.specs.Prelude.{◌≡◌, ◌||◌};
ghost use Rattle.cov_config.specs.Plain.{settings_view};
ghost use Rattle.cov_step.specs.Testing.{tests_asked};
ghost use Rattle.cov_suites.specs.Views.{asked_view};

use cov_config::Config;

/// The words of `suite`: its options and its operand.
#[derive(Drop)]
pub struct SuiteWords {
    pub branch: bool,
    pub budget: Option<u64>,
    pub data_file: Option<String>,
    pub rcfile: Option<String>,
    pub file: String,
}

/// Whether tests record arcs, their static context, and the steps of the import and of each test.
#[derive(Drop)]
pub(crate) struct TestsRequest {
    pub arcs: bool,
    pub fixed: String,
    pub budget: u64,
}

/// What tests are asked by these words and settings.
pub(crate) fn request_of(branch: bool, budget: Option<u64>, settings: Config) -> TestsRequest
    ensures { asked_view result ≡ tests_asked (settings_view settings) branch budget }
{
    TestsRequest {
        arcs: either(branch, settings.branch),
        fixed: settings.context,
        budget: budget.unwrap_or(settings.budget),
    }
}

/// Words and settings may each ask for it.
fn either(word: bool, setting: bool) -> bool
    ensures { result ≡ (word || setting) }
{
    word || setting
}
