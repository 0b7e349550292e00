//! A law of data.
ghost use Rattle.cov_data.specs.Laws.{LinesOfArcsLaw};

/// The executed lines of arc data are the positive numbers in their arcs. It does nothing when it
/// runs.
pub fn lines_of_arcs()
    ensures { LinesOfArcsLaw }
{}
