//! What a command of a script does, by what it needs.
ghost use Rattle.cov_app.specs.Groups.{of_data, of_report};
ghost use Rattle.cov_app.specs.Objects.{all_of, on_all};
ghost use Rattle.cov_app.specs.Sizes.{HasSmallSize};
ghost use Rattle.cov_calls.specs.Views.{answered_view};
ghost use Rattle.cov_measure.specs.Measures.{streams};
ghost use Rattle.cov_programs.specs.Ends.{Follows};
ghost use Rattle.cov_reports.specs.Objects.{on_report};
ghost use Rattle.cov_step.specs.Calls.{IsNoMemory, seen};
ghost use Rattle.cov_step.specs.Scripts.{inside};
ghost use Rattle.cov_words.specs.Plain.{command_view};

use cov_calls::Answered;
use cov_contexts::Plugin;
use cov_exclude::Maker;
use cov_joins::{CombineOptions, combine, erase};
use cov_made::make;
use cov_mutates::mutate;
use cov_outside::{Shelf, Sink, Source};
use cov_reports::{annotate, json, lcov, report};
use cov_runs::{RunWords, arcs, run};
use cov_selects::select;
use cov_suites::{SuiteWords, suite};
use cov_vault::Vault;
use cov_why::Why;
use cov_words::Command;
use py_machine::Engine;
use std::alloc::Global;

/// Does what a command of a script does. There a script is no command.
pub(crate) fn inside<H: Shelf, V: Vault, M: Maker, I: Source, O: Sink, G: Engine, P: Plugin>(
    alloc: Global,
    command: Command,
    shelf: &mut H,
    vault: &mut V,
    maker: &mut M,
    input: &mut I,
    out: &mut O,
    plugins: &mut Vec<P>,
    engine: &mut G,
) -> Result<Answered, Why>
    requires { HasSmallSize (command_view command) }
    ensures { Follows (on_all H.Shelf V.Vault M.Maker I.Source O.Sink P.Plugin G.Engine) IsNoMemory
        (inside (command_view command))
        (all_of shelf.old vault.old maker.old
        (streams input.old out.old plugins.old.items engine.old))
        (seen answered_view result)
        (all_of shelf.new vault.new maker.new
        (streams input.new out.new plugins.new.items engine.new)) }
{
    match command {
        Command::Arcs {
            budget,
            script,
            args,
        } => arcs(
            alloc, budget, script, args, shelf, input, out, plugins, engine,
        ),
        Command::Run {
            branch,
            append,
            context,
            budget,
            hook,
            data_file,
            rcfile,
            script,
            args,
        } => {
            let words = RunWords {
                branch,
                append,
                context,
                budget,
                hook,
                data_file,
                rcfile,
                script,
                args,
            };
            run(alloc, words, shelf, vault, input, out, plugins, engine)
        }
        Command::Make { seed, size } => make(alloc, seed, size, maker, out),
        Command::Suite {
            branch,
            budget,
            data_file,
            rcfile,
            file,
        } => {
            let words = SuiteWords {
                branch,
                budget,
                data_file,
                rcfile,
                file,
            };
            suite(alloc, words, shelf, vault, out, plugins)
        }
        Command::Select { budget, old, new } => {
            select(alloc, budget, old.as_str(), new.as_str(), shelf, out)
        }
        Command::Mutate { budget, file } => mutate(alloc, budget, file.as_str(), shelf, out),
        other => of_data(alloc, other, shelf, vault, maker, out),
    }
}

/// Does what a command on data does, or a report.
fn of_data<H: Shelf, V: Vault, M: Maker, O: Sink>(
    alloc: Global,
    command: Command,
    shelf: &mut H,
    vault: &mut V,
    maker: &mut M,
    out: &mut O,
) -> Result<Answered, Why>
    ensures { Follows (on_report H.Shelf V.Vault M.Maker O.Sink) IsNoMemory
        (of_data (command_view command)) (((shelf.old, vault.old), maker.old), out.old)
        (seen answered_view result) (((shelf.new, vault.new), maker.new), out.new) }
{
    match command {
        Command::Combine {
            append,
            keep,
            data_file,
            rcfile,
            names,
        } => {
            let how = CombineOptions { append, keep };
            let (data_file, rcfile) = (data_file.as_deref(), rcfile.as_deref());
            combine(
                alloc,
                how,
                data_file,
                rcfile,
                names.as_slice(),
                shelf,
                vault,
            )
        }
        Command::Erase { data_file, rcfile } => {
            erase(alloc, data_file.as_deref(), rcfile.as_deref(), shelf, vault)
        }
        other => of_report(alloc, other, shelf, vault, maker, out),
    }
}

/// Does what a report does.
fn of_report<H: Shelf, V: Vault, M: Maker, O: Sink>(
    alloc: Global,
    command: Command,
    shelf: &mut H,
    vault: &mut V,
    maker: &mut M,
    out: &mut O,
) -> Result<Answered, Why>
    ensures { Follows (on_report H.Shelf V.Vault M.Maker O.Sink) IsNoMemory
        (of_report (command_view command)) (((shelf.old, vault.old), maker.old), out.old)
        (seen answered_view result) (((shelf.new, vault.new), maker.new), out.new) }
{
    match command {
        Command::Report {
            show_missing: show,
            fail_under,
            data_file,
            rcfile,
        } => {
            let (data_file, rcfile) = (data_file.as_deref(), rcfile.as_deref());
            report(
                alloc, show, fail_under, data_file, rcfile, shelf, vault, maker, out,
            )
        }
        Command::Json {
            name,
            fail_under,
            data_file,
            rcfile,
        } => {
            let (data_file, rcfile) = (data_file.as_deref(), rcfile.as_deref());
            let name = name.as_deref();
            json(
                alloc, name, fail_under, data_file, rcfile, shelf, vault, maker, out,
            )
        }
        Command::Lcov {
            name,
            fail_under,
            data_file,
            rcfile,
        } => {
            let (data_file, rcfile) = (data_file.as_deref(), rcfile.as_deref());
            let name = name.as_deref();
            lcov(
                alloc, name, fail_under, data_file, rcfile, shelf, vault, maker, out,
            )
        }
        Command::Annotate {
            data_file,
            rcfile,
            file,
        } => {
            let (data_file, rcfile) = (data_file.as_deref(), rcfile.as_deref());
            let file = file.as_str();
            annotate(alloc, data_file, rcfile, file, shelf, vault, maker, out)
        }
        Command::Arcs { .. }
        | Command::Run { .. }
        | Command::Combine { .. }
        | Command::Erase { .. }
        | Command::Script { .. }
        | Command::Make { .. }
        | Command::Suite { .. }
        | Command::Select { .. }
        | Command::Mutate { .. } => Err(Why::Usage(0)),
    }
}
