//! The lines of a module that a text spells: two laws over texts, tokens and trees. The functions
//! below do nothing, and stand for the laws that their contracts state.
#![tactic(auto)]

ghost use Rattle.py_line_laws.specs.Lines.{LinesLaw};
ghost use Rattle.py_line_laws.specs.OwnLines.{OwnLinesLaw};

/// Where tokens keep the lines of a text, the statement lines of the module that they spell are
/// lines of that text.
pub fn lines_of_texts()
    ensures { LinesLaw }
{}

/// Of the module that a text spells, no two `def`s begin on one line.
pub fn own_lines()
    ensures { OwnLinesLaw }
{}
