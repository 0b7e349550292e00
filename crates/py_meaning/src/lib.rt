//! What programs of the language mean: what they write, how they end, their steps, and the lines,
//! arcs and events of their activations. There are definitions and laws over them, and no call that
//! a program makes: each function below does nothing, and stands for the law that its contract
//! states.
#![tactic(auto)]

ghost use Rattle.py_builtins.specs.NameLaws.{NameLaw};
ghost use Rattle.py_meaning.specs.Laws.{ProgramBudgetLaw, ModulesBudgetLaw, CallBudgetLaw, ProgramPrefixLaw, ModulesPrefixLaw, CallPrefixLaw, StepsLaw, SteadyLaw, UncutLaw, EventsLaw};

/// A larger budget changes nothing: where a program isn't cut, its run is the same with every
/// budget of at least the steps that it took, and is cut with every smaller one.
pub fn larger_budget()
    ensures { ProgramBudgetLaw }
{}

/// The same of a list of modules, whatever they were loaded from.
pub fn larger_budget_of_modules()
    ensures { ModulesBudgetLaw }
{}

/// The same of one call.
pub fn larger_budget_of_call()
    ensures { CallBudgetLaw }
{}

/// What a program writes and tells within a budget is the beginning of what it writes and tells
/// within a larger one.
pub fn smaller_budget()
    ensures { ProgramPrefixLaw }
{}

/// The same of a list of modules.
pub fn smaller_budget_of_modules()
    ensures { ModulesPrefixLaw }
{}

/// The same of one call.
pub fn smaller_budget_of_call()
    ensures { CallPrefixLaw }
{}

/// Statements never raise the number of the steps that are left.
pub fn steps_left()
    ensures { StepsLaw }
{}

/// Nor do they where the calls inside them are any that never raise it.
pub fn steps_left_by_calls()
    ensures { SteadyLaw }
{}

/// Only a want of steps cuts a run, and a loop goes on turn by turn.
pub fn cut_by_steps()
    ensures { UncutLaw }
{}

/// The events of a run are those of its items.
pub fn events_of_items()
    ensures { EventsLaw }
{}

/// A name that was set gives its value, and one that was unset gives none; no other name changes.
pub fn names_set_and_unset()
    ensures { NameLaw }
{}
