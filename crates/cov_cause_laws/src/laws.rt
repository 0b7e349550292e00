//! For which causes commands are refused.
ghost use Rattle.cov_cause_laws.specs.Laws.{CauseLaw, LineLaw, OneCause, OnlyCauses, OnlyImports, ScriptCauseLaw};
ghost use Rattle.cov_cause_laws.specs.Rows.{BadLimit, ManyPatterns, NoWords, NothingReported};

use cov_complete_laws::defaults_are_set;
use cov_contexts::Plugin;
use cov_exclude::Maker;
use cov_load_laws::{one_loading, one_reading};
use cov_make_laws::made_are_read;
use cov_outside::{Shelf, Sink, Source};
use cov_vault::Vault;
use cov_words::one_command;
use py_machine::Engine;

/// Causes are of files, data and words: none is a fault of an object, nor want of memory. Only a
/// command that imports tests is refused for an import, and for that of its own file. It does
/// nothing when it runs.
pub fn only_causes()
    ensures causes { OnlyCauses }
    ensures imports { OnlyImports }
{}

/// Two causes that hold of the same words, files and data are the same refusal, but those of
/// patterns: so there is one order of refusals. It does nothing when it runs.
pub fn one_cause()
    ensures { OneCause }
{
    one_loading();
    one_reading();
    one_command();
}

/// Words that are no script are refused exactly for their causes, where shelf and vault tell what
/// they hold, no fault is counted and memory suffices. It does nothing when it runs.
pub fn caused<H: Shelf, V: Vault, M: Maker, I: Source, O: Sink, E: Sink, G: Engine, P: Plugin>()
    ensures { CauseLaw H.Shelf V.Vault M.Maker I.Source O.Sink P.Plugin G.Engine E.Sink }
{
    one_loading();
    one_reading();
    made_are_read();
    one_command();
}

/// So is each line of a script, by the files and the data where the lines before it led. It does
/// nothing when it runs.
pub fn caused_lines<
    H: Shelf,
    V: Vault,
    M: Maker,
    I: Source,
    O: Sink,
    E: Sink,
    G: Engine,
    P: Plugin,
>()
    ensures { LineLaw H.Shelf V.Vault M.Maker I.Source O.Sink P.Plugin G.Engine E.Sink }
{
    one_loading();
    one_reading();
    made_are_read();
    one_command();
}

/// A script is refused exactly by its file, or by the first of its lines that is refused where those
/// before it led. It does nothing when it runs.
pub fn caused_scripts<
    H: Shelf,
    V: Vault,
    M: Maker,
    I: Source,
    O: Sink,
    E: Sink,
    G: Engine,
    P: Plugin,
>()
    ensures { ScriptCauseLaw H.Shelf V.Vault M.Maker I.Source O.Sink P.Plugin G.Engine E.Sink }
{
    one_loading();
    one_reading();
    made_are_read();
    one_command();
}

/// Causes that are worked out: no words, a report of nothing, a limit that is a text, and 33
/// patterns. It does nothing when it runs.
pub fn worked_causes()
    ensures no_words { NoWords }
    ensures nothing_reported { NothingReported }
    ensures bad_limit { BadLimit }
    ensures many_patterns { ManyPatterns }
{
    defaults_are_set();
}
