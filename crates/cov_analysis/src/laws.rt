//! A law of analyses that reports take.
ghost use Rattle.cov_analysis.specs.Analyses.{ReportsLaw};

/// Files that are reportable are what each report asks for. It does nothing when it runs.
pub fn reportable_files()
    ensures { ReportsLaw }
{}
