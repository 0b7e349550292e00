//! The command `make`.
ghost use Rattle.std.specs.Prelude.{◌≡◌, ◌≤◌, IfErr, IfOk};
ghost use Rattle.cov_calls.specs.Views.{answered_view, lists_view};
ghost use Rattle.cov_made.specs.Refusals.{IsMakeRefusal};
ghost use Rattle.cov_made.specs.Rests.{usual, with_patterns, with_source};
ghost use Rattle.cov_made.specs.Sources.{IsMade};
ghost use Rattle.cov_made.specs.Views.{source_view};
ghost use Rattle.cov_outside.specs.Counts.{Rose};
ghost use Rattle.cov_programs.specs.Ends.{Follows};
ghost use Rattle.cov_programs.specs.Objects.{beside};
ghost use Rattle.cov_step.specs.Calls.{IsNoMemory, seen};
ghost use Rattle.cov_step.specs.Making.{make};
ghost use Rattle.cov_step.specs.Objects.{on_maker, on_sink};
ghost use Rattle.cov_step.specs.Phases.{done};
ghost use Rattle.cov_streams.specs.Trials.{on_trial};
ghost use Rattle.cov_why.specs.Answers.{RefusedAs};

use crate::lines::write_line;
use crate::sources::{MadeSource, made_source};
use crate::trials::tried;
use cov_calls::{Answered, PatternLists, patterns_by};
use cov_config::Config;
use cov_exclude::Maker;
use cov_make_laws::made_are_read;
use cov_outside::Sink;
use cov_why::Why;
use std::alloc::Global;

/// Makes up the source of `size` blocks that the seed gives, runs it with its arcs, and writes one
/// line of what a report counts of it. The run reads nothing, and what it writes is thrown away.
pub fn make<M: Maker, O: Sink>(
    alloc: Global,
    seed: u64,
    size: u32,
    maker: &mut M,
    out: &mut O,
) -> Result<Answered, Why>
    requires { size ≤ 16000 }
    ensures follows { Follows (beside (beside on_trial (on_maker M.Maker)) (on_sink O.Sink))
        IsNoMemory (make seed size) ((tt, maker.old), out.old) (seen answered_view result)
        ((tt, maker.new), out.new) }
    ensures done { IfOk result (λ a. answered_view a ≡ done) }
    ensures refused { IfErr result (λ w. RefusedAs w
        (IsMakeRefusal (Rose (M.sizes maker.old) (M.sizes maker.new))
        (Rose (O.faults out.old) (O.faults out.new)))) }
{
    made_are_read();
    made(alloc, seed, size, maker, out)
}

/// The patterns, and the rest after them.
fn made<M: Maker, O: Sink>(
    alloc: Global,
    seed: u64,
    size: u32,
    maker: &mut M,
    out: &mut O,
) -> Result<Answered, Why>
    requires { size ≤ 16000 }
    ensures { Follows (beside (beside on_trial (on_maker M.Maker)) (on_sink O.Sink)) IsNoMemory
        (make seed size) ((tt, maker.old), out.old) (seen answered_view result)
        ((tt, maker.new), out.new) }
{
    let patterns = usual_patterns(alloc, maker)?;
    with_patterns(alloc, seed, size, &patterns, out)
}

/// The patterns of settings that set none.
fn usual_patterns<M: Maker>(alloc: Global, maker: &mut M) -> Result<PatternLists, Why>
    ensures { Follows (on_maker M.Maker) IsNoMemory usual maker.old (seen lists_view result)
        maker.new }
{
    match Config::defaults(alloc) {
        Ok(usual) => patterns_by(
            alloc,
            usual.exclude_lines.as_slice(),
            usual.partial_branches.as_slice(),
            maker,
        ),
        Err(_) => Err(Why::NoMemory),
    }
}

/// The source, its run and its line.
fn with_patterns<O: Sink>(
    alloc: Global,
    seed: u64,
    size: u32,
    patterns: &PatternLists,
    out: &mut O,
) -> Result<Answered, Why>
    requires { size ≤ 16000 }
    ensures { Follows (beside on_trial (on_sink O.Sink)) IsNoMemory
        (with_patterns seed size (lists_view patterns.now)) (tt, out.old)
        (seen answered_view result) (tt, out.new) }
{
    let source = made_source(alloc, seed, size)?;
    with_source(alloc, seed, size, patterns, &source, out)
}

/// The run of a source, and its line.
fn with_source<O: Sink>(
    alloc: Global,
    seed: u64,
    size: u32,
    patterns: &PatternLists,
    source: &MadeSource,
    out: &mut O,
) -> Result<Answered, Why>
    requires { IsMade source.now }
    ensures { Follows (beside on_trial (on_sink O.Sink)) IsNoMemory
        (with_source seed size (lists_view patterns.now) (source_view source.now)) (tt, out.old)
        (seen answered_view result) (tt, out.new) }
{
    let ran = tried(alloc, source)?;
    write_line(alloc, seed, size, patterns, source, &ran, out)
}
