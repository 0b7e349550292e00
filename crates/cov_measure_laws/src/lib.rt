//! What the data of a run are: laws between a recorder and what its run means. The functions below
//! do nothing when they run, and stand for the laws that their contracts state. `units_of` alone
//! does something: it gives the units of programs, as a recorder wants them.
#![tactic(auto)]

ghost use Rattle.cov_measure_laws.specs.Foreseen.{ForeseenDataLaw, ProgramForeseenDataLaw, ModulesForeseenDataLaw, CallForeseenDataLaw};
ghost use Rattle.cov_measure_laws.specs.Leaving.{LeavingLaw};
ghost use Rattle.cov_measure_laws.specs.Meant.{MeantDataLaw, ModulesMeantLaw, CallMeantLaw};
ghost use Rattle.cov_measure_laws.specs.Places.{RecordedPlacesLaw, ProgramPlacesLaw, ModulesPlacesLaw, CallPlacesLaw};
ghost use Rattle.cov_measure_laws.specs.RunLines.{LinesOfArcsLaw, ModulesLinesLaw, CallLinesLaw};
ghost use Rattle.cov_measure_laws.specs.Totals.{ModulesTotalsLaw, CallTotalsLaw};
ghost use Rattle.cov_measure_laws.specs.Units.{UnitsLaw};
ghost use Rattle.cov_measure_laws.specs.Whole.{WholePlanLaw, WithoutSetsLaw, ProgramWholeLaw, ModulesWholeLaw, CallWholeLaw};
ghost use Rattle.cov_recorder.specs.Asking.{asks};
ghost use Rattle.cov_recorder.specs.States.{state_of};

mod naming;

use cov_arcs::{told_arcs_of_call, told_arcs_of_modules};
use cov_contexts::Plugin;
use cov_event::Ask;
use cov_hook_laws::hooks_mean;
use cov_recorder::recorded_rows;
use cov_recorder_laws::{recorded_steps_of_call, recorded_steps_of_modules};
pub use naming::units_of;
use py_compile::units_are_faithful;
use py_prediction_laws::{foreseen_arcs_of_call, foreseen_arcs_of_modules};

/// What a recorder keeps of events has a place of a row for each step that they tell and that has a
/// counter, and for nothing else.
pub fn recorded_places<A: Ask, P: Plugin>()
    ensures { RecordedPlacesLaw (asks A.Ask P.Plugin) state_of }
{}

/// The events of a program's run tell each step as often as its meaning crosses it.
pub fn places_of_program()
    ensures { ProgramPlacesLaw }
{
    told_arcs_of_modules();
}

/// The same of a list of modules, whatever they were loaded from.
pub fn places_of_modules()
    ensures { ModulesPlacesLaw }
{
    told_arcs_of_modules();
}

/// The same of one call.
pub fn places_of_call()
    ensures { CallPlacesLaw }
{
    told_arcs_of_call();
}

/// Where data have what foreseen items cross, each recorded arc is possible in its module, and each
/// that isn't predicted was thrown at each of its places. This asks nothing of what has a counter.
pub fn foreseen_data()
    ensures { ForeseenDataLaw }
{}

/// So it is of a recorder that took the events of a program's run, also where the run was cut.
pub fn foreseen_data_of_program<A: Ask, P: Plugin>()
    ensures { ProgramForeseenDataLaw (asks A.Ask P.Plugin) state_of }
{
    recorded_steps_of_modules::<A, P>();
    foreseen_arcs_of_modules();
}

/// The same of a list of modules, whatever they were loaded from.
pub fn foreseen_data_of_modules<A: Ask, P: Plugin>()
    ensures { ModulesForeseenDataLaw (asks A.Ask P.Plugin) state_of }
{
    recorded_steps_of_modules::<A, P>();
    foreseen_arcs_of_modules();
}

/// The same of one call.
pub fn foreseen_data_of_call<A: Ask, P: Plugin>()
    ensures { CallForeseenDataLaw (asks A.Ask P.Plugin) state_of }
{
    recorded_steps_of_call::<A, P>();
    foreseen_arcs_of_call();
}

/// A plan is whole that a recorder makes of sets that hold what is possible: for data of arcs, and
/// for data of lines, whose counters reach the greatest line.
pub fn whole_plans()
    ensures { WholePlanLaw }
{}

/// Where each step of events has a counter, a recorder keeps their data as if there were no sets.
pub fn data_without_sets<A: Ask, P: Plugin>()
    ensures { WithoutSetsLaw (asks A.Ask P.Plugin) state_of }
{
    recorded_rows::<A, P>();
}

/// With a whole plan nothing of a program's run is left out, also where the run was cut.
pub fn whole_data_of_program<A: Ask, P: Plugin>()
    ensures { ProgramWholeLaw (asks A.Ask P.Plugin) state_of }
{
    told_arcs_of_modules();
    foreseen_arcs_of_modules();
    recorded_steps_of_modules::<A, P>();
}

/// The same of a list of modules, whatever they were loaded from.
pub fn whole_data_of_modules<A: Ask, P: Plugin>()
    ensures { ModulesWholeLaw (asks A.Ask P.Plugin) state_of }
{
    told_arcs_of_modules();
    foreseen_arcs_of_modules();
    recorded_steps_of_modules::<A, P>();
}

/// The same of one call.
pub fn whole_data_of_call<A: Ask, P: Plugin>()
    ensures { CallWholeLaw (asks A.Ask P.Plugin) state_of }
{
    told_arcs_of_call();
    foreseen_arcs_of_call();
    recorded_steps_of_call::<A, P>();
}

/// Programs that are faithful code of modules have the units of these, which begin in lines that a
/// text may have.
pub fn units_of_programs()
    ensures { UnitsLaw }
{
    units_are_faithful();
}

/// The data of events under the labels of a hook of code are those under the labels that its trees
/// mean.
pub fn meant_data<A: Ask, P: Plugin>()
    ensures { MeantDataLaw A.Ask P.Plugin }
{
    hooks_mean();
}

/// A recorder of a plan that programs and their possible arcs make keeps the data that a run of a
/// list of modules means, also where the run was cut.
pub fn meant_data_of_modules<A: Ask, P: Plugin>()
    ensures { ModulesMeantLaw A.Ask P.Plugin state_of }
{
    hooks_mean();
    units_of_programs();
    whole_plans();
    data_without_sets::<A, P>();
    whole_data_of_modules::<A, P>();
}

/// The same of one call.
pub fn meant_data_of_call<A: Ask, P: Plugin>()
    ensures { CallMeantLaw A.Ask P.Plugin state_of }
{
    hooks_mean();
    units_of_programs();
    whole_plans();
    data_without_sets::<A, P>();
    whole_data_of_call::<A, P>();
}

/// The lines of data of arcs are the lines in their arcs.
pub fn lines_of_arcs()
    ensures { LinesOfArcsLaw }
{}

/// With whole plans data of arcs and data of lines of one run of modules have the same lines.
pub fn lines_of_modules<A: Ask, P: Plugin>()
    ensures { ModulesLinesLaw (asks A.Ask P.Plugin) state_of }
{
    told_arcs_of_modules();
    whole_data_of_modules::<A, P>();
}

/// The same of one call.
pub fn lines_of_call<A: Ask, P: Plugin>()
    ensures { CallLinesLaw (asks A.Ask P.Plugin) state_of }
{
    told_arcs_of_call();
    whole_data_of_call::<A, P>();
}

/// What a recorder keeps of a run of modules are as many rows, over all contexts, as the run
/// crosses arcs that have a counter, at all their places.
pub fn totals_of_modules<A: Ask, P: Plugin>()
    ensures { ModulesTotalsLaw (asks A.Ask P.Plugin) state_of }
{
    recorded_places::<A, P>();
    places_of_modules();
}

/// The same of one call.
pub fn totals_of_call<A: Ask, P: Plugin>()
    ensures { CallTotalsLaw (asks A.Ask P.Plugin) state_of }
{
    recorded_places::<A, P>();
    places_of_call();
}

/// Whatever a recorder was told, and whatever it refused, its plugins are those that didn't leave,
/// in the states that their answers gave.
pub fn left_plugins<A: Ask, P: Plugin>()
    ensures { LeavingLaw A.Ask P.Plugin state_of }
{}
