//! The top call: one command over a shelf, a vault, a maker of patterns, an input and two sinks.
ghost use Rattle.std.specs.Prelude.{◌≡◌, ◌≤◌, ℕ, Bool, true, List, Option, map, string_bytes};
ghost use Rattle.cov_app.specs.Early.{IsEarly};
ghost use Rattle.cov_app.specs.Ending.{IsDone};
ghost use Rattle.cov_app.specs.Heads.{HeadsWhere};
ghost use Rattle.cov_app.specs.Joined.{AreWordsOf, CombineLeft};
ghost use Rattle.cov_app.specs.Kept.{AreLeft, ChangesLast};
ghost use Rattle.cov_app.specs.Objects.{all_of, lent, on_all, on_command};
ghost use Rattle.cov_app.specs.Sizes.{HasSmallSize};
ghost use Rattle.cov_app.specs.Taken.{AnswersTo, HasOneText, StepTaken, why_of, ending_in};
ghost use Rattle.cov_calls.specs.Views.{answered_view};
ghost use Rattle.cov_cause_laws.specs.Causes.{IsRefusedFor};
ghost use Rattle.cov_cause_laws.specs.Exactly.{IsExact, IsScriptExact, NoScript};
ghost use Rattle.cov_complete_laws.specs.Complete.{NoneRose};
ghost use Rattle.cov_complete_laws.specs.Ready.{Ready};
ghost use Rattle.cov_complete_laws.specs.Scripts.{IsReadyScript};
ghost use Rattle.cov_measure.specs.Measures.{streams};
ghost use Rattle.cov_measure_laws.specs.Leaving.{AreLeft as ArePluginsLeft};
ghost use Rattle.cov_outside.specs.Counts.{Rose};
ghost use Rattle.cov_programs.specs.Ends.{Follows};
ghost use Rattle.cov_step.specs.Calls.{IsNoMemory, seen};
ghost use Rattle.cov_step.specs.Step.{doing, step};
ghost use Rattle.cov_why.specs.Answers.{import_failed, is_refusal, plain_why};
ghost use Rattle.cov_why.specs.Statuses.{status_of};
ghost use Rattle.cov_words.specs.Commands.{PlainCommand, IsCommand};
ghost use Rattle.cov_words.specs.Commands as plain;
ghost use Rattle.cov_words.specs.Plain.{command_view};

use crate::answer::{End, Told, why_of};
use crate::commands::command_of;
use crate::inside::inside;
use crate::saying::tell;
use crate::scripts::script;
use cov_calls::Answered;
use cov_cause_laws::{caused, caused_scripts};
use cov_complete_laws::{complete, complete_script};
use cov_contexts::Plugin;
use cov_exclude::Maker;
use cov_headline::headline;
use cov_outside::{Shelf, Sink, Source};
use cov_vault::Vault;
use cov_why::Why;
use cov_words::Command;
use py_machine::Engine;
use std::alloc::Global;

/// Runs the command that the words spell. Programs and settings are read from the shelf, and run
/// by the engine with this input and output; what they took is kept in the vault. The line of a
/// refusal goes to `err`, and so does an uncaught exception or the text of an exit. Each command of
/// a script says its own text, until one is refused. A plugin that leaves is taken from the list.
pub fn coverage<H: Shelf, V: Vault, M: Maker, I: Source, O: Sink, E: Sink, G: Engine, P: Plugin>(
    alloc: Global,
    words: &[String],
    shelf: &mut H,
    vault: &mut V,
    maker: &mut M,
    input: &mut I,
    out: &mut O,
    err: &mut E,
    plugins: &mut Vec<P>,
    engine: &mut G,
) -> End
    // The objects follow the step of the words, and it ends as answered.
    ensures step { StepTaken
        (on_all H.Shelf V.Vault M.Maker I.Source O.Sink P.Plugin G.Engine) E.Sink
        (map string_bytes words.now)
        (all_of shelf.old vault.old maker.old
        (streams input.old out.old plugins.old.items engine.old))
        (all_of shelf.new vault.new maker.new
        (streams input.new out.new plugins.new.items engine.new))
        result.why result.told err.old err.new }
    ensures status { result.status ≡ status_of (plain_why result.why) }

    // The headline. Where the objects tell what they hold and count no fault, memory suffices and
    // the engine is true, every run prints and ends as its source means. Its arcs are those of that
    // meaning, each predicted or crossed by an exception. What `report`, `json` and `lcov` list as
    // missing is exactly what neither a combined run nor data that were there at first took, of the
    // statements that aren't excluded and the predicted branches that are neither excluded nor
    // freed. So it is of each line of a script, over the data that those before it left.
    ensures headline { HeadsWhere
        H.Shelf V.Vault M.Maker I.Source O.Sink P.Plugin G.Engine E.Sink
        (map string_bytes words.now) (plain_why result.why)
        (lent shelf.old vault.old maker.old
        (streams input.old out.old plugins.old.items engine.old) err.old Told.Whole)
        (lent shelf.new vault.new maker.new
        (streams input.new out.new plugins.new.items engine.new) err.new result.told) }

    // For all objects:
    ensures read_fault { result.why ≡ Why.ReadFault
        → Rose (I.faults input.old) (I.faults input.new) }
    ensures write_fault { result.why ≡ Why.WriteFault
        → Rose (O.faults out.old) (O.faults out.new) }
    ensures shelf_fault { result.why ≡ Why.ShelfFault
        → Rose (H.faults shelf.old) (H.faults shelf.new) }
    ensures vault_fault { result.why ≡ Why.VaultFault
        → Rose (V.faults vault.old) (V.faults vault.new) }
    ensures pattern_size { (at : ℕ) → result.why ≡ Why.PatternSize at
        → Rose (M.sizes maker.old) (M.sizes maker.new) }
    ensures told_failed { result.told ≡ Told.Failed → Rose (E.faults err.old) (E.faults err.new) }

    ensures counts { (H.faults shelf.old ≤ H.faults shelf.new)
        × (V.faults vault.old ≤ V.faults vault.new) × (M.sizes maker.old ≤ M.sizes maker.new)
        × (I.faults input.old ≤ I.faults input.new) × (O.faults out.old ≤ O.faults out.new)
        × (E.faults err.old ≤ E.faults err.new) }

    // A refusal leaves files and data that are told as they were, where words aren't those of
    // `combine` or `script`.
    ensures kept { is_refusal (plain_why result.why) ≡ true
        → ChangesLast (map string_bytes words.now)
        → AreLeft H.Shelf V.Vault shelf.old shelf.new vault.old vault.new }
    // A refusal but a fault and want of memory leaves input, output, plugins and engine as they
    // were, where words aren't those of `script`: that data are bad, where the vault tells what it
    // holds; that an import of tests failed, where words aren't those of `suite`.
    ensures untouched { IsEarly (map string_bytes words.now) (V.tells vault.old)
        (plain_why result.why)
        → HasOneText (map string_bytes words.now)
        → streams input.new out.new plugins.new.items engine.new
        ≡ streams input.old out.old plugins.old.items engine.old }
    // Where an import of tests failed, of `suite` too, input, output and engine are as they were. Of
    // the plugins some may have left. Here too words aren't those of `script`.
    ensures imports { (file : List ℕ) → plain_why result.why ≡ Err (import_failed file)
        → HasOneText (map string_bytes words.now)
        → streams input.new out.new plugins.new.items engine.new
        ≡ streams input.old out.old plugins.new.items engine.old }

    // `combine` changes its data file and its inputs alone, and nothing where it is refused but by
    // a fault of the vault or want of memory; of files and data that are told.
    ensures combined { (append keep : Bool) (data_file rcfile : Option (List ℕ))
        (names : List (List ℕ))
        → AreWordsOf (plain.combine append keep data_file rcfile names) (map string_bytes words.now)
        → CombineLeft H.tells (V.tells vault.old) (H.files shelf.old) (H.files shelf.new) keep
        data_file rcfile names (plain_why result.why) (V.contents vault.old)
        (V.contents vault.new) }

    // Each plugin stays, in the state that its answers gave, or it left; whatever the answer.
    ensures plugins { ArePluginsLeft P.Plugin plugins.old.items plugins.new.items }

    // A command isn't refused that is ready by what files and data tell, where no fault is counted
    // and memory suffices; nor is a script of such lines.
    ensures complete { (c : PlainCommand) → IsCommand c (map string_bytes words.now)
        → Ready (H.files shelf.old) (V.contents vault.old) c → H.tells → V.tells vault.old
        → NoneRose H.Shelf V.Vault M.Maker I.Source O.Sink
        (all_of shelf.old vault.old maker.old
        (streams input.old out.old plugins.old.items engine.old))
        (all_of shelf.new vault.new maker.new
        (streams input.new out.new plugins.new.items engine.new))
        → IsDone (plain_why result.why) }
    ensures complete_script { (name : List ℕ)
        → IsCommand (plain.script name) (map string_bytes words.now)
        → IsReadyScript
        (on_command H.Shelf V.Vault M.Maker I.Source O.Sink P.Plugin G.Engine E.Sink)
        (λ w. H.files w.0.0.0.0.1) (λ w. V.contents w.0.0.0.1) name
        (lent shelf.old vault.old maker.old
        (streams input.old out.old plugins.old.items engine.old) err.old Told.Whole)
        → H.tells → V.tells vault.old
        → NoneRose H.Shelf V.Vault M.Maker I.Source O.Sink
        (all_of shelf.old vault.old maker.old
        (streams input.old out.old plugins.old.items engine.old))
        (all_of shelf.new vault.new maker.new
        (streams input.new out.new plugins.new.items engine.new))
        → IsDone (plain_why result.why) }

    // Words that are no script are refused only for a cause that holds by them, and by the files and
    // the data before the call, or for want of memory. Where such a cause holds, but a pattern's,
    // they are refused for it, for want of memory, or for a pattern that the grammar doesn't read.
    // Files and data are told, and no fault is counted.
    ensures caused { NoScript (map string_bytes words.now) → H.tells → V.tells vault.old
        → NoneRose H.Shelf V.Vault M.Maker I.Source O.Sink
        (all_of shelf.old vault.old maker.old
        (streams input.old out.old plugins.old.items engine.old))
        (all_of shelf.new vault.new maker.new
        (streams input.new out.new plugins.new.items engine.new))
        → AnswersTo (IsExact
        (IsRefusedFor (H.files shelf.old) (V.contents vault.old) (map string_bytes words.now)))
        (plain_why result.why) }
    // A script is refused exactly so by its file; or else by the first of its lines of which a cause
    // holds, by the files and the data where the lines before it led.
    ensures caused_script { (name : List ℕ)
        → IsCommand (plain.script name) (map string_bytes words.now)
        → H.tells → V.tells vault.old
        → NoneRose H.Shelf V.Vault M.Maker I.Source O.Sink
        (all_of shelf.old vault.old maker.old
        (streams input.old out.old plugins.old.items engine.old))
        (all_of shelf.new vault.new maker.new
        (streams input.new out.new plugins.new.items engine.new))
        → AnswersTo (IsScriptExact
        (on_command H.Shelf V.Vault M.Maker I.Source O.Sink P.Plugin G.Engine E.Sink)
        (λ w. H.files w.0.0.0.0.1) (λ w. V.contents w.0.0.0.1) name
        (lent shelf.old vault.old maker.old
        (streams input.old out.old plugins.old.items engine.old) err.old Told.Whole))
        (plain_why result.why) }
{
    headline::<H, V, M, I, O, E, G, P>();
    complete::<H, V, M, I, O, E, G, P>();
    complete_script::<H, V, M, I, O, E, G, P>();
    caused::<H, V, M, I, O, E, G, P>();
    caused_scripts::<H, V, M, I, O, E, G, P>();
    let mut told = Told::Whole;
    let answer = answer(
        alloc, words, shelf, vault, maker, input, out, err, &mut told, plugins, engine,
    );
    let (why, ending) = parts(alloc, answer);
    let told = tell(alloc, &why, ending.as_str(), told, err);
    drop(ending);
    let status = why.status();
    End { status, why, told }
}

/// The answer, and what is written to `err` besides.
fn parts(alloc: Global, answer: Result<Answered, Why>) -> (Why, String)
    ensures answer { plain_why result.0 ≡ why_of (seen answered_view answer) }
    ensures ending { string_bytes result.1 ≡ ending_in (seen answered_view answer) }
{
    match answer {
        Err(why) => (why, String::new(alloc)),
        Ok(Answered { ended, ending }) => (why_of(ended), ending),
    }
}

/// How the command of the words ended.
fn answer<H: Shelf, V: Vault, M: Maker, I: Source, O: Sink, E: Sink, G: Engine, P: Plugin>(
    alloc: Global,
    words: &[String],
    shelf: &mut H,
    vault: &mut V,
    maker: &mut M,
    input: &mut I,
    out: &mut O,
    err: &mut E,
    told: &mut Told,
    plugins: &mut Vec<P>,
    engine: &mut G,
) -> Result<Answered, Why>
    ensures { Follows
        (on_command H.Shelf V.Vault M.Maker I.Source O.Sink P.Plugin G.Engine E.Sink) IsNoMemory
        (step (map string_bytes words.now))
        (lent shelf.old vault.old maker.old
        (streams input.old out.old plugins.old.items engine.old) err.old told.old)
        (seen answered_view result)
        (lent shelf.new vault.new maker.new
        (streams input.new out.new plugins.new.items engine.new) err.new told.new) }
{
    let command = command_of(alloc, words)?;
    run_command(
        alloc, command, shelf, vault, maker, input, out, err, told, plugins, engine,
    )
}

/// Does what a command does.
fn run_command<H: Shelf, V: Vault, M: Maker, I: Source, O: Sink, E: Sink, G: Engine, P: Plugin>(
    alloc: Global,
    command: Command,
    shelf: &mut H,
    vault: &mut V,
    maker: &mut M,
    input: &mut I,
    out: &mut O,
    err: &mut E,
    told: &mut Told,
    plugins: &mut Vec<P>,
    engine: &mut G,
) -> Result<Answered, Why>
    requires { HasSmallSize (command_view command) }
    ensures { Follows
        (on_command H.Shelf V.Vault M.Maker I.Source O.Sink P.Plugin G.Engine E.Sink) IsNoMemory
        (doing (command_view command))
        (lent shelf.old vault.old maker.old
        (streams input.old out.old plugins.old.items engine.old) err.old told.old)
        (seen answered_view result)
        (lent shelf.new vault.new maker.new
        (streams input.new out.new plugins.new.items engine.new) err.new told.new) }
{
    match command {
        Command::Script { file } => script(
            alloc,
            file.as_str(),
            shelf,
            vault,
            maker,
            input,
            out,
            err,
            told,
            plugins,
            engine,
        ),
        other => inside(
            alloc, other, shelf, vault, maker, input, out, plugins, engine,
        ),
    }
}
