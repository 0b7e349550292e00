//! A loaded program is one that can be measured. The functions below do nothing when they run, and
//! stand for the laws that their contracts state.
#![tactic(auto)]

ghost use Rattle.cov_loaded_laws.specs.Loaded.{LoadedHaveTextLines, LoadedLaw};

use cov_measure_laws::units_of_programs;
use cov_outside::Shelf;
use py_line_laws::lines_of_texts;

/// The modules of a loaded program are in lines that a text may have.
pub fn loaded_have_text_lines<H: Shelf>()
    ensures { LoadedHaveTextLines H.reads }
{
    lines_of_texts();
}

/// A loaded program whose modules are in such lines meets what `measure` asks. Its trees are those
/// that are measured, where the sets hold what is possible in them.
pub fn loaded_programs_are_measured()
    ensures { LoadedLaw }
{
    units_of_programs();
}
