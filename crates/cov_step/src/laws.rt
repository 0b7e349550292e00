//! Laws of the commands, whatever the objects do that they call.
ghost use Rattle.cov_step.specs.Combining.{CombineLaw};
ghost use Rattle.cov_step.specs.Early.{EarlyLaw, ImportLaw};
ghost use Rattle.cov_step.specs.Promises.{BlameLaw, CarefulLaw, QuietLaw, RunTwiceLaw, YieldLaw};

/// A command that changes shelf or vault by its last call alone isn't refused after it. So a
/// refusal leaves both as they were. It does nothing when it runs.
pub fn careful()
    ensures { CarefulLaw }
{}

/// A command says nothing on `err` before it ended, but for a script, whose commands do. It does
/// nothing when it runs.
pub fn quiet()
    ensures { QuietLaw }
{}

/// A command but a script is refused before it runs anything on its objects or writes anything.
/// What may come later are faults, want of memory, and a save of a run or of a suite whose target
/// isn't of schema 7; and of `suite` alone that its import failed, which runs on its objects too.
/// It does nothing when it runs.
pub fn refuses_early()
    ensures { EarlyLaw }
{}

/// Where the import of tests failed, a command is refused before anything is written. It does
/// nothing when it runs.
pub fn import_fails_early()
    ensures { ImportLaw }
{}

/// `combine` is refused before it changed data, but by faults of the vault and want of memory, and
/// it puts no file. It does nothing when it runs.
pub fn combine_is_careful()
    ensures { CombineLaw }
{}

/// A run calls the vault at most twice. It does nothing when it runs.
pub fn run_calls_vault_twice()
    ensures { RunTwiceLaw }
{}

/// A refusal that blames an object is given only after an answer that was its fault. It does
/// nothing when it runs.
pub fn blames_who_failed()
    ensures { BlameLaw }
{}

/// Where an object answers that memory is wanting, so does the command. It does nothing when it
/// runs.
pub fn yields_to_want_of_memory()
    ensures { YieldLaw }
{}
