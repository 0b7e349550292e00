// What holds of every code.
ghost use Rattle.py_code.specs.Laws.{NeverMisses, OneMachine};

/// Code never misses an operand, a slot, a unit or a place to go to.
pub fn never_misses<L>()
    ensures { NeverMisses L }
{}

/// Local names by slots and by names are one and the same to a machine.
pub fn slots_are_names()
    ensures { OneMachine }
{}
