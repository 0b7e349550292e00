//! What is reported.
ghost use Rattle.cov_analysis.specs.Analyses.{AreReportable};

use cov_analysis::Analysis;
use cov_config::Config;

/// The settings of a command, whether its data are of arcs, and the analyses of the sources, in the
/// order of their paths.
#[derive(Drop)]
pub(crate) struct Findings {
    pub(crate) settings: Config,
    pub(crate) arcs: bool,
    pub(crate) files: Vec<Analysis>,
    ghost reportable: { AreReportable files.items },
}
