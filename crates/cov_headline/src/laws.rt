//! Laws of data and of the runs that they come from, and the headline over commands.
ghost use Rattle.cov_headline.specs.Headline.{HeadlineLaw};
ghost use Rattle.cov_headline.specs.Origins.{OriginLaw};
ghost use Rattle.cov_headline.specs.Reports.{OrderLaw, ReportLaw};

use cov_arcs::{told_arcs_of_call, told_arcs_of_modules};
use cov_contexts::Plugin;
use cov_exclude::Maker;
use cov_outside::{Shelf, Sink, Source};
use cov_vault::Vault;
use py_machine::Engine;

/// Data that runs recorded, and that were joined and combined, have exactly what these runs took.
/// It does nothing when it runs.
pub fn data_of_origins()
    ensures { OriginLaw }
{}

/// What a report over such data lists as missing are exactly the statements and the predicted
/// branches that aren't excluded or freed, and that were taken neither by one of these runs nor in
/// data that were found. It does nothing when it runs.
pub fn missing_of_origins()
    ensures { ReportLaw }
{}

/// The order in which data are combined changes neither the data nor a report. It does nothing when
/// it runs.
pub fn same_in_any_order()
    ensures { OrderLaw }
{}

/// The headline, over the objects that a command is lent. It does nothing when it runs.
pub fn headline<H: Shelf, V: Vault, M: Maker, I: Source, O: Sink, E: Sink, G: Engine, P: Plugin>()
    ensures { HeadlineLaw H.Shelf V.Vault M.Maker I.Source O.Sink P.Plugin G.Engine E.Sink }
{
    told_arcs_of_modules();
    told_arcs_of_call();
}
