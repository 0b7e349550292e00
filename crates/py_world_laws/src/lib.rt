//! That a world keeps fitting its programs: laws over worlds and code. The functions below do
//! nothing, and each stands for the law that its contract states.
#![tactic(auto)]

ghost use Rattle.py_world_laws.specs.Laws.{FirstFits, RunsKeep, CallsKeep, FewerFit};

/// The world with which a program begins fits it.
pub fn first_fits()
    ensures { FirstFits }
{}

/// A run of code that makes functions as their units ask leaves a world that fits.
pub fn runs_keep()
    ensures { RunsKeep }
{}

/// So does a call, and what it gives fits too.
pub fn calls_keep()
    ensures { CallsKeep }
{}

/// Values that a world fits with may be left out, so that the world alone fits after a call.
pub fn fewer_fit()
    ensures { FewerFit }
{}
