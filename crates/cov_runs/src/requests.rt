// What a run is asked: words go before settings.
ghost use Rattle.std.specs.Prelude.{◌≡◌, ◌||◌, map, option_map, string_bytes};
ghost use Rattle.cov_config.specs.Plain.{hook_view, settings_view};
ghost use Rattle.cov_runs.specs.Rests.{RunAs};
ghost use Rattle.cov_step.specs.Commands.{asked_by, hook_named};

use cov_config::Config;
use cov_measure::RunRequest;

/// The words of `run`: its options and its operands.
#[derive(Drop)]
pub struct RunWords {
    pub branch: bool,
    pub append: bool,
    pub context: Option<String>,
    pub budget: Option<u64>,
    pub hook: Option<(String, String)>,
    pub data_file: Option<String>,
    pub rcfile: Option<String>,
    pub script: String,
    pub args: Vec<String>,
}

/// What the run is asked.
pub(crate) fn request_of(words: RunWords, settings: Config) -> RunRequest
    ensures { RunAs result
        (asked_by (settings_view settings) words.branch (option_map string_bytes words.context)
        words.budget (string_bytes words.script) (map string_bytes words.args.items))
        (hook_named (hook_view words.hook) (settings_view settings).run.hook)
        (string_bytes words.script) }
{
    RunRequest {
        script: words.script,
        args: words.args,
        arcs: either(words.branch, settings.branch),
        fixed: words.context.unwrap_or(settings.context),
        by_name: settings.dynamic_context,
        hook: words.hook.or(settings.hook),
        budget: words.budget.unwrap_or(settings.budget),
    }
}

/// Words and settings may each ask for it.
fn either(word: bool, setting: bool) -> bool
    ensures { result ≡ (word || setting) }
{
    word || setting
}
