// The hook of a run.
ghost use Rattle.std.specs.Prelude.{◌≡◌};
ghost use Rattle.std.specs.Str.{chars};
ghost use Rattle.cov_hook.specs.View.{path_of};
ghost use Rattle.cov_loaded_laws.specs.Loaded.{IsMeasurable};
ghost use Rattle.cov_programs.specs.Objects.{nobody};
ghost use Rattle.cov_run.specs.Loads.{IsCompiled, loaded_modules};
ghost use Rattle.cov_config.specs.Plain.{hook_view};
ghost use Rattle.cov_runs.specs.Hooks.{HookFollows};
ghost use Rattle.cov_calls.specs.Views.{RefusedBy};
ghost use Rattle.cov_step.specs.Calls.{Call, Answer};
ghost use Rattle.cov_step.specs.Objects.{on_shelf};
ghost use Rattle.cov_step.specs.Phases.{hook_of, hook_in};
ghost use Rattle.cov_why.specs.Answers.{no_function};

use crate::opening::opened;
use cov_hook::{Hook, HookError};
use cov_hook_laws::hooks_mean;
use cov_outside::Shelf;
use cov_run::Loaded;
use cov_why::Why;
use std::alloc::Global;

/// The hook that these words name, where they name one: its files are loaded, and its function has
/// to be there.
pub(crate) fn hook_of<H: Shelf>(
    alloc: Global,
    hook: &Option<(String, String)>,
    shelf: &mut H,
) -> Result<Option<Hook>, Why>
    ensures { HookFollows (on_shelf H.Shelf) (hook_of (hook_view hook.now)) shelf.old result
        shelf.new }
{
    match hook {
        None => Ok(None),
        Some((script, function)) => {
            let loaded = opened(alloc, script.as_str(), shelf)?;
            hook_in(alloc, script.as_str(), function.as_str(), loaded)
        }
    }
}

/// The hook of a loaded script, where its function is there.
fn hook_in(alloc: Global, script: &str, function: &str, loaded: Loaded) -> Result<Option<Hook>, Why>
    requires compiled { IsCompiled loaded }
    requires measurable { IsMeasurable loaded }
    requires script { path_of loaded.programs ≡ chars script.now }
    ensures { HookFollows (nobody Call Answer)
        (hook_in script.now function.now (loaded_modules loaded)) tt result tt }
{
    hooks_mean();
    match Hook::open(alloc, loaded.programs, function) {
        Ok(hook) => Ok(Some(hook)),
        Err(HookError::NoFunction) => Err(no_function(alloc, function)),
        Err(HookError::NoMemory) => Err(Why::NoMemory),
    }
}

/// The script of a hook has no such function.
fn no_function(alloc: Global, name: &str) -> Why
    ensures { RefusedBy (no_function name.now) result }
{
    match String::from_str(alloc, name) {
        Ok(name) => Why::NoFunction(name),
        Err(_) => Why::NoMemory,
    }
}
