//! The commands of a file, one line after another.
ghost use Rattle.std.specs.Prelude.{◌≡◌, ◌++◌, map, string_bytes, codes, decimal, IfOk};
ghost use Rattle.std.specs.Str.Lines.{lines};
ghost use Rattle.cov_app.specs.Objects.{all_of, lent, on_all, on_command, saying};
ghost use Rattle.cov_app.specs.Sizes.{HasSmallSize};
ghost use Rattle.cov_app.specs.Spelled.{inside_done};
ghost use Rattle.cov_calls.specs.Views.{answered_view, sink_refusal_of};
ghost use Rattle.cov_measure.specs.Measures.{streams};
ghost use Rattle.cov_programs.specs.Ends.{Follows};
ghost use Rattle.cov_programs.specs.Objects.{beside, nobody};
ghost use Rattle.cov_programs.specs.Programs.{ask};
ghost use Rattle.cov_step.specs.Answers.{on, sink_refusal};
ghost use Rattle.cov_step.specs.Calls.{Call, Answer, IsNoMemory, seen, writes};
ghost use Rattle.cov_step.specs.Objects.{on_err, on_sink};
ghost use Rattle.cov_step.specs.Scripts.{ended_in, line_done, line_step, lines_done, script, words_done};
ghost use Rattle.cov_words.specs.Plain.{command_view};

use crate::answer::{Told, why_of};
use crate::commands::command_of;
use crate::inside::inside;
use crate::lines::{is_comment, lines_in, words_in};
use crate::saying::tell;
use crate::script_files::script_text;
use cov_calls::Answered;
use cov_contexts::Plugin;
use cov_exclude::Maker;
use cov_outside::{Shelf, Sink, SinkError, Source};
use cov_vault::Vault;
use cov_why::Why;
use cov_words::Command;
use py_machine::Engine;
use py_text::NoMemory;
use std::alloc::Global;

/// Runs the commands of a file, until one is refused. After each that wasn't, its text is said and
/// its status is a line of the output.
pub(crate) fn script<
    H: Shelf,
    V: Vault,
    M: Maker,
    I: Source,
    O: Sink,
    E: Sink,
    G: Engine,
    P: Plugin,
>(
    alloc: Global,
    name: &str,
    shelf: &mut H,
    vault: &mut V,
    maker: &mut M,
    input: &mut I,
    out: &mut O,
    err: &mut E,
    told: &mut Told,
    plugins: &mut Vec<P>,
    engine: &mut G,
) -> Result<Answered, Why>
    ensures { Follows
        (on_command H.Shelf V.Vault M.Maker I.Source O.Sink P.Plugin G.Engine E.Sink) IsNoMemory
        (script name.now)
        (lent shelf.old vault.old maker.old
        (streams input.old out.old plugins.old.items engine.old) err.old told.old)
        (seen answered_view result)
        (lent shelf.new vault.new maker.new
        (streams input.new out.new plugins.new.items engine.new) err.new told.new) }
{
    let text = script_text(alloc, name, shelf)?;
    lines_done(
        alloc,
        text.as_str(),
        shelf,
        vault,
        maker,
        input,
        out,
        err,
        told,
        plugins,
        engine,
    )
}

/// Runs the commands of the lines of a text.
fn lines_done<H: Shelf, V: Vault, M: Maker, I: Source, O: Sink, E: Sink, G: Engine, P: Plugin>(
    alloc: Global,
    text: &str,
    shelf: &mut H,
    vault: &mut V,
    maker: &mut M,
    input: &mut I,
    out: &mut O,
    err: &mut E,
    told: &mut Told,
    plugins: &mut Vec<P>,
    engine: &mut G,
) -> Result<Answered, Why>
    ensures { Follows
        (on_command H.Shelf V.Vault M.Maker I.Source O.Sink P.Plugin G.Engine E.Sink) IsNoMemory
        (lines_done (lines text.now))
        (lent shelf.old vault.old maker.old
        (streams input.old out.old plugins.old.items engine.old) err.old told.old)
        (seen answered_view result)
        (lent shelf.new vault.new maker.new
        (streams input.new out.new plugins.new.items engine.new) err.new told.new) }
{
    match lines_in(alloc, text) {
        Ok(lines) => each_done(
            alloc,
            lines.as_slice(),
            shelf,
            vault,
            maker,
            input,
            out,
            err,
            told,
            plugins,
            engine,
        ),
        Err(_) => Err(Why::NoMemory),
    }
}

/// Runs the commands of these lines.
fn each_done<H: Shelf, V: Vault, M: Maker, I: Source, O: Sink, E: Sink, G: Engine, P: Plugin>(
    alloc: Global,
    lines: &[&str],
    shelf: &mut H,
    vault: &mut V,
    maker: &mut M,
    input: &mut I,
    out: &mut O,
    err: &mut E,
    told: &mut Told,
    plugins: &mut Vec<P>,
    engine: &mut G,
) -> Result<Answered, Why>
    ensures { Follows
        (on_command H.Shelf V.Vault M.Maker I.Source O.Sink P.Plugin G.Engine E.Sink) IsNoMemory
        (lines_done (map (λ line. line.now) lines.now))
        (lent shelf.old vault.old maker.old
        (streams input.old out.old plugins.old.items engine.old) err.old told.old)
        (seen answered_view result)
        (lent shelf.new vault.new maker.new
        (streams input.new out.new plugins.new.items engine.new) err.new told.new) }
{
    for line in lines {
        line_step(
            alloc, line, shelf, vault, maker, input, out, err, told, plugins, engine,
        )?;
    }
    Ok(Answered::done(alloc))
}

/// Runs the command of a line. One that is blank and one that begins with `#` are passed over.
fn line_step<H: Shelf, V: Vault, M: Maker, I: Source, O: Sink, E: Sink, G: Engine, P: Plugin>(
    alloc: Global,
    line: &str,
    shelf: &mut H,
    vault: &mut V,
    maker: &mut M,
    input: &mut I,
    out: &mut O,
    err: &mut E,
    told: &mut Told,
    plugins: &mut Vec<P>,
    engine: &mut G,
) -> Result<(), Why>
    ensures { Follows
        (on_command H.Shelf V.Vault M.Maker I.Source O.Sink P.Plugin G.Engine E.Sink) IsNoMemory
        (line_step line.now)
        (lent shelf.old vault.old maker.old
        (streams input.old out.old plugins.old.items engine.old) err.old told.old)
        (seen (λ _. tt) result)
        (lent shelf.new vault.new maker.new
        (streams input.new out.new plugins.new.items engine.new) err.new told.new) }
{
    if is_comment(line) {
        return Ok(());
    }
    match words_in(alloc, line) {
        Ok(words) => words_done(
            alloc,
            words.as_slice(),
            shelf,
            vault,
            maker,
            input,
            out,
            err,
            told,
            plugins,
            engine,
        ),
        Err(_) => Err(Why::NoMemory),
    }
}

/// Runs the command of these words, where there are some.
fn words_done<H: Shelf, V: Vault, M: Maker, I: Source, O: Sink, E: Sink, G: Engine, P: Plugin>(
    alloc: Global,
    words: &[String],
    shelf: &mut H,
    vault: &mut V,
    maker: &mut M,
    input: &mut I,
    out: &mut O,
    err: &mut E,
    told: &mut Told,
    plugins: &mut Vec<P>,
    engine: &mut G,
) -> Result<(), Why>
    ensures { Follows
        (on_command H.Shelf V.Vault M.Maker I.Source O.Sink P.Plugin G.Engine E.Sink) IsNoMemory
        (words_done (map string_bytes words.now))
        (lent shelf.old vault.old maker.old
        (streams input.old out.old plugins.old.items engine.old) err.old told.old)
        (seen (λ _. tt) result)
        (lent shelf.new vault.new maker.new
        (streams input.new out.new plugins.new.items engine.new) err.new told.new) }
{
    if words.is_empty() {
        return Ok(());
    }
    line_done(
        alloc, words, shelf, vault, maker, input, out, err, told, plugins, engine,
    )
}

/// Runs the command that these words are.
fn line_done<H: Shelf, V: Vault, M: Maker, I: Source, O: Sink, E: Sink, G: Engine, P: Plugin>(
    alloc: Global,
    words: &[String],
    shelf: &mut H,
    vault: &mut V,
    maker: &mut M,
    input: &mut I,
    out: &mut O,
    err: &mut E,
    told: &mut Told,
    plugins: &mut Vec<P>,
    engine: &mut G,
) -> Result<(), Why>
    ensures { Follows
        (on_command H.Shelf V.Vault M.Maker I.Source O.Sink P.Plugin G.Engine E.Sink) IsNoMemory
        (line_done (map string_bytes words.now))
        (lent shelf.old vault.old maker.old
        (streams input.old out.old plugins.old.items engine.old) err.old told.old)
        (seen (λ _. tt) result)
        (lent shelf.new vault.new maker.new
        (streams input.new out.new plugins.new.items engine.new) err.new told.new) }
{
    let command = command_of(alloc, words)?;
    inside_done(
        alloc, command, shelf, vault, maker, input, out, err, told, plugins, engine,
    )
}

/// Runs a command, and tells of it.
fn inside_done<H: Shelf, V: Vault, M: Maker, I: Source, O: Sink, E: Sink, G: Engine, P: Plugin>(
    alloc: Global,
    command: Command,
    shelf: &mut H,
    vault: &mut V,
    maker: &mut M,
    input: &mut I,
    out: &mut O,
    err: &mut E,
    told: &mut Told,
    plugins: &mut Vec<P>,
    engine: &mut G,
) -> Result<(), Why>
    requires { HasSmallSize (command_view command) }
    ensures { Follows
        (on_command H.Shelf V.Vault M.Maker I.Source O.Sink P.Plugin G.Engine E.Sink) IsNoMemory
        (inside_done (command_view command))
        (lent shelf.old vault.old maker.old
        (streams input.old out.old plugins.old.items engine.old) err.old told.old)
        (seen (λ _. tt) result)
        (lent shelf.new vault.new maker.new
        (streams input.new out.new plugins.new.items engine.new) err.new told.new) }
{
    let answered = inside(
        alloc, command, shelf, vault, maker, input, out, plugins, engine,
    )?;
    ended_in(alloc, answered, out, err, told)
}

/// Says the text of a command that ended, and writes its status.
fn ended_in<O: Sink, E: Sink>(
    alloc: Global,
    answered: Answered,
    out: &mut O,
    err: &mut E,
    told: &mut Told,
) -> Result<(), Why>
    ensures { Follows (beside (on_sink O.Sink) (on_err E.Sink)) IsNoMemory
        (ended_in (answered_view answered)) (out.old, saying err.old told.old)
        (seen (λ _. tt) result) (out.new, saying err.new told.new) }
{
    let why = why_of(answered.ended);
    *told = tell(alloc, &why, answered.ending.as_str(), *told, err);
    write_status(alloc, why.status(), out)
}

/// Writes the line of a status.
fn write_status<O: Sink>(alloc: Global, status: u8, out: &mut O) -> Result<(), Why>
    ensures { Follows (on_sink O.Sink) IsNoMemory
        (ask (writes (codes "= " ++ (decimal status ++ codes "\n"))) (on sink_refusal)) out.old
        (seen (λ _. tt) result) out.new }
{
    match status_line(alloc, status) {
        Ok(line) => write_line(alloc, line.as_bytes(), out),
        Err(_) => Err(Why::NoMemory),
    }
}

fn status_line(alloc: Global, status: u8) -> Result<String, NoMemory>
    ensures { IfOk result (λ line.
        string_bytes line ≡ codes "= " ++ (decimal status ++ codes "\n")) }
{
    format!(in alloc; "= {status}\n")
}

fn write_line<O: Sink>(alloc: Global, line: &[u8], out: &mut O) -> Result<(), Why>
    ensures { Follows (on_sink O.Sink) IsNoMemory (ask (writes line.now) (on sink_refusal)) out.old
        (seen (λ _. tt) result) out.new }
{
    noted(out.write(alloc, line))
}

fn noted(answer: Result<(), SinkError>) -> Result<(), Why>
    ensures { Follows (nobody Call Answer) IsNoMemory (on sink_refusal (sink_refusal_of answer)) tt
        (seen (λ _. tt) result) tt }
{
    match answer {
        Ok(()) => Ok(()),
        Err(SinkError::Failed) => Err(Why::WriteFault),
        Err(SinkError::NoMemory) => Err(Why::NoMemory),
    }
}
