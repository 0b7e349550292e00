//! What holds of each loaded program, since its modules were read from texts: laws over what `load`
//! of `cov_run` answers. The functions below do nothing, and each stands for the law that its
//! contract states.
#![tactic(auto)]

ghost use Rattle.cov_run_laws.specs.LoadedPrograms.{LoadedAreProper, LoadedMakes};

use cov_outside::Shelf;
use py_line_laws::{lines_of_texts, own_lines};
use py_making_laws::code_makes;

/// The code of a program that `load` gave makes functions as its units ask. So runs and calls of
/// `py_machine` keep a store fitting it.
pub fn loaded_makes<H: Shelf>()
    ensures { LoadedMakes H.reads }
{
    code_makes();
    own_lines();
}

/// Its modules are such as the laws of `py_prediction_laws` ask for. So the arcs of its runs and
/// calls are foreseen.
pub fn loaded_are_proper<H: Shelf>()
    ensures { LoadedAreProper H.reads }
{
    lines_of_texts();
}
