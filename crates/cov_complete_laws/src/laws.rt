//! Which commands aren't refused.
ghost use Rattle.cov_complete_laws.specs.Complete.{CompleteLaw};
ghost use Rattle.cov_complete_laws.specs.Premises.{DefaultsLaw};
ghost use Rattle.cov_complete_laws.specs.Scripts.{ScriptLaw};

use cov_contexts::Plugin;
use cov_exclude::Maker;
use cov_load_laws::{completes, one_reading};
use cov_make_laws::made_are_read;
use cov_outside::{Shelf, Sink, Source};
use cov_vault::Vault;
use cov_words::one_command;
use py_machine::Engine;

/// Where the usual file of settings isn't there, a command whose words name none takes the
/// defaults. It does nothing when it runs.
pub fn defaults_are_set()
    ensures { DefaultsLaw }
{}

/// Words of a command that is ready aren't refused, where shelf and vault tell what they hold, no
/// fault is counted and memory suffices. It does nothing when it runs.
pub fn complete<H: Shelf, V: Vault, M: Maker, I: Source, O: Sink, E: Sink, G: Engine, P: Plugin>()
    ensures { CompleteLaw H.Shelf V.Vault M.Maker I.Source O.Sink P.Plugin G.Engine E.Sink }
{
    completes();
    one_reading();
    made_are_read();
    one_command();
}

/// Words of a script that is ready aren't refused: its file can be read, and each line is passed
/// over, or is a command that is ready where the lines before it led. It does nothing when it runs.
pub fn complete_script<
    H: Shelf,
    V: Vault,
    M: Maker,
    I: Source,
    O: Sink,
    E: Sink,
    G: Engine,
    P: Plugin,
>()
    ensures { ScriptLaw H.Shelf V.Vault M.Maker I.Source O.Sink P.Plugin G.Engine E.Sink }
{
    completes();
    one_reading();
    made_are_read();
    one_command();
}
