//! Laws of scripts, over the objects that a command is lent.
ghost use Rattle.cov_app.specs.Objects.{on_command};
ghost use Rattle.cov_step.specs.Promises.{FoldLaw};

use cov_contexts::Plugin;
use cov_exclude::Maker;
use cov_outside::{Shelf, Sink, Source};
use cov_vault::Vault;
use py_machine::Engine;

/// A script is the fold of its lines: each begins where those before it led, until one is refused.
/// It does nothing when it runs.
pub fn scripts_fold<
    H: Shelf,
    V: Vault,
    M: Maker,
    I: Source,
    O: Sink,
    E: Sink,
    G: Engine,
    P: Plugin,
>()
    ensures { FoldLaw
        (on_command H.Shelf V.Vault M.Maker I.Source O.Sink P.Plugin G.Engine E.Sink) }
{}
