//! The command `run`: runs a script and saves what its run took.
ghost use Rattle.std.specs.Prelude.{◌≡◌, ℕ, List, Option, map, option_map, string_bytes};
ghost use Rattle.cov_calls.specs.Views.{answered_view};
ghost use Rattle.cov_loaded_laws.specs.Loaded.{IsMeasurable};
ghost use Rattle.cov_measure.specs.Measures.{streams};
ghost use Rattle.cov_programs.specs.Ends.{Follows};
ghost use Rattle.cov_programs.specs.Objects.{beside};
ghost use Rattle.cov_run.specs.Loads.{loaded_modules};
ghost use Rattle.cov_config.specs.Plain.{hook_view};
ghost use Rattle.cov_runs.specs.Hooks.{HookAs};
ghost use Rattle.cov_runs.specs.Rests.{RunAs, hooked, targeted};
ghost use Rattle.cov_step.specs.Calls.{Asked, HookFiles, IsNoMemory, seen};
ghost use Rattle.cov_step.specs.Commands.{run, run_by};
ghost use Rattle.cov_step.specs.Objects.{on_shelf, on_vault};
ghost use Rattle.cov_streams.specs.Objects.{on_run};

use crate::hooks::hook_of;
use crate::measuring::measured;
use crate::opening::opened;
use crate::requests::{RunWords, request_of};
use crate::saving::joins;
use cov_calls::{Answered, own_name, settings, target};
use cov_contexts::Plugin;
use cov_hook::Hook;
use cov_measure::RunRequest;
use cov_outside::{Shelf, Sink, Source};
use cov_run::Loaded;
use cov_vault::Vault;
use cov_why::Why;
use py_machine::Engine;
use std::alloc::Global;

/// Runs the script of these words, and saves the rows of its run under the data file's name. The
/// vault is called once before the run, and once after it.
pub fn run<H: Shelf, V: Vault, I: Source, O: Sink, G: Engine, P: Plugin>(
    alloc: Global,
    words: RunWords,
    shelf: &mut H,
    vault: &mut V,
    input: &mut I,
    out: &mut O,
    plugins: &mut Vec<P>,
    engine: &mut G,
) -> Result<Answered, Why>
    ensures { Follows (beside (beside (on_shelf H.Shelf) (on_vault V.Vault))
        (on_run I.Source O.Sink P.Plugin G.Engine)) IsNoMemory
        (run words.branch words.append (option_map string_bytes words.context) words.budget
        (hook_view words.hook) (option_map string_bytes words.data_file)
        (option_map string_bytes words.rcfile) (string_bytes words.script)
        (map string_bytes words.args.items))
        ((shelf.old, vault.old), streams input.old out.old plugins.old.items engine.old)
        (seen answered_view result)
        ((shelf.new, vault.new), streams input.new out.new plugins.new.items engine.new) }
{
    let found = settings(alloc, words.rcfile.as_deref(), shelf)?;
    match own_name(alloc, words.data_file.as_deref(), &found) {
        Ok(own) => {
            let append = words.append;
            let request = request_of(words, found);
            run_by(
                alloc,
                own.as_str(),
                append,
                &request,
                shelf,
                vault,
                input,
                out,
                plugins,
                engine,
            )
        }
        Err(_) => Err(Why::NoMemory),
    }
}

/// Loads the script, and goes on.
fn run_by<H: Shelf, V: Vault, I: Source, O: Sink, G: Engine, P: Plugin>(
    alloc: Global,
    own: &str,
    append: bool,
    request: &RunRequest,
    shelf: &mut H,
    vault: &mut V,
    input: &mut I,
    out: &mut O,
    plugins: &mut Vec<P>,
    engine: &mut G,
) -> Result<Answered, Why>
    ensures { (asked : Asked) (hook : Option (List ℕ × List ℕ)) (script : List ℕ)
        → RunAs request.now asked hook script
        → Follows (beside (beside (on_shelf H.Shelf) (on_vault V.Vault))
        (on_run I.Source O.Sink P.Plugin G.Engine)) IsNoMemory
        (run_by own.now append asked hook script)
        ((shelf.old, vault.old), streams input.old out.old plugins.old.items engine.old)
        (seen answered_view result)
        ((shelf.new, vault.new), streams input.new out.new plugins.new.items engine.new) }
{
    let loaded = opened(alloc, request.script.as_str(), shelf)?;
    hooked(
        alloc, own, append, request, &loaded, shelf, vault, input, out, plugins, engine,
    )
}

/// Loads the files of the hook, and goes on.
fn hooked<H: Shelf, V: Vault, I: Source, O: Sink, G: Engine, P: Plugin>(
    alloc: Global,
    own: &str,
    append: bool,
    request: &RunRequest,
    loaded: &Loaded,
    shelf: &mut H,
    vault: &mut V,
    input: &mut I,
    out: &mut O,
    plugins: &mut Vec<P>,
    engine: &mut G,
) -> Result<Answered, Why>
    requires { IsMeasurable loaded.now }
    ensures { (asked : Asked) (hook : Option (List ℕ × List ℕ)) (script : List ℕ)
        → RunAs request.now asked hook script
        → Follows (beside (beside (on_shelf H.Shelf) (on_vault V.Vault))
        (on_run I.Source O.Sink P.Plugin G.Engine)) IsNoMemory
        (hooked own.now append asked hook (loaded_modules loaded.now))
        ((shelf.old, vault.old), streams input.old out.old plugins.old.items engine.old)
        (seen answered_view result)
        ((shelf.new, vault.new), streams input.new out.new plugins.new.items engine.new) }
{
    let hook = hook_of(alloc, &request.hook, shelf)?;
    targeted(
        alloc, own, append, request, loaded, hook, vault, input, out, plugins, engine,
    )
}

/// Looks at what the run joins its rows to, and goes on.
fn targeted<V: Vault, I: Source, O: Sink, G: Engine, P: Plugin>(
    alloc: Global,
    own: &str,
    append: bool,
    request: &RunRequest,
    loaded: &Loaded,
    hook: Option<Hook>,
    vault: &mut V,
    input: &mut I,
    out: &mut O,
    plugins: &mut Vec<P>,
    engine: &mut G,
) -> Result<Answered, Why>
    requires { IsMeasurable loaded.now }
    ensures { (asked : Asked) (files : Option HookFiles) (named : Option (List ℕ × List ℕ))
        (script : List ℕ) → RunAs request.now asked named script → HookAs hook files
        → Follows (beside (on_vault V.Vault) (on_run I.Source O.Sink P.Plugin G.Engine)) IsNoMemory
        (targeted own.now append asked (loaded_modules loaded.now) files)
        (vault.old, streams input.old out.old plugins.old.items engine.old)
        (seen answered_view result)
        (vault.new, streams input.new out.new plugins.new.items engine.new) }
{
    let was = target(alloc, own, vault)?;
    let old = joins(alloc, append, own, request.arcs, was)?;
    measured(
        alloc, own, request, loaded, hook, old, vault, input, out, plugins, engine,
    )
}
