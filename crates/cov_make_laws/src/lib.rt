//! What holds of the sources that `cov_make` makes up: laws over its `source`. The functions below
//! do nothing, and each stands for the law that its contract states.
#![tactic(auto)]

ghost use Rattle.cov_make_laws.specs.Endings.{MadeFinish, MadeFinishByDefault, MadeFinishOnMachine};
ghost use Rattle.cov_make_laws.specs.Loadings.{MadeAreAlone, MadeAreLoaded};
ghost use Rattle.cov_make_laws.specs.Readings.{MadeAreRead, MadeAreReadable};

use py_compile_laws::traces_kept;
use py_parse::one_tree;
use py_token::one_spelling;

/// The source of each seed and size spells a tree within the limits, which is well formed.
pub fn made_are_readable()
    ensures { MadeAreReadable }
{}

/// No check refuses its bytes: whatever reading them comes to is that tree, where there is memory.
pub fn made_are_read()
    ensures { MadeAreRead }
{
    one_spelling();
    one_tree();
}

/// Its module has no function and imports none, so it is loaded alone.
pub fn made_are_alone()
    ensures { MadeAreAlone }
{}

/// Whatever loading a script comes to that is such a source is its module alone, where there is
/// memory and the shelf doesn't fail.
pub fn made_are_loaded()
    ensures { MadeAreLoaded }
{
    one_spelling();
    one_tree();
}

/// Its run finishes, whatever its words and its input are, where the budget is enough for its size.
pub fn made_finish()
    ensures { MadeFinish }
{}

/// Its run finishes with the default budget, in less than 400,000 steps.
pub fn made_finish_by_default()
    ensures { MadeFinishByDefault }
{}

/// The machine's run of its code does too.
pub fn made_finish_on_machine()
    ensures { MadeFinishOnMachine }
{
    traces_kept();
}
