//! A law of what tables hold.
ghost use Rattle.cov_tables.specs.Laws.{InOrderLaw};

/// The entries that are read in order are sorted, and a permutation of those that are there: one
/// list is. It does nothing when it runs.
pub fn entries_in_order()
    ensures { InOrderLaw }
{}
