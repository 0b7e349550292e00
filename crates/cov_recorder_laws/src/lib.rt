//! What a recorder keeps of a run, over the arcs that its events tell and its meaning crosses. The
//! functions below do nothing when they run, and stand for the laws that their contracts state.
#![tactic(auto)]

ghost use Rattle.cov_recorder.specs.Asking.{asks};
ghost use Rattle.cov_recorder.specs.States.{state_of};
ghost use Rattle.cov_recorder_laws.specs.Laws.{RecordedStepsLaw, ProgramStepsLaw, ModulesStepsLaw, CallStepsLaw, SameStepsLaw};

use cov_arcs::{told_arcs, told_arcs_of_call, told_arcs_of_modules};
use cov_contexts::Plugin;
use cov_event::Ask;

/// The arcs in the data of a recorder, over all contexts, are those that its events tell, as far as
/// its plan has them. In data of lines so are the lines.
pub fn recorded_steps<A: Ask, P: Plugin>()
    ensures { RecordedStepsLaw (asks A.Ask P.Plugin) state_of }
{}

/// Of the events of a program's run, also where the run was cut, they are those that its meaning
/// crosses.
pub fn recorded_steps_of_program<A: Ask, P: Plugin>()
    ensures { ProgramStepsLaw (asks A.Ask P.Plugin) state_of }
{
    told_arcs();
}

/// The same of a list of modules, whatever they were loaded from.
pub fn recorded_steps_of_modules<A: Ask, P: Plugin>()
    ensures { ModulesStepsLaw (asks A.Ask P.Plugin) state_of }
{
    told_arcs_of_modules();
}

/// The same of one call.
pub fn recorded_steps_of_call<A: Ask, P: Plugin>()
    ensures { CallStepsLaw (asks A.Ask P.Plugin) state_of }
{
    told_arcs_of_call();
}

/// Two recorders of one plan that took the same events have the same arcs and lines, whatever their
/// hooks and plugins answered.
pub fn same_steps<A: Ask, P: Plugin, B: Ask, Q: Plugin>()
    ensures { SameStepsLaw (asks A.Ask P.Plugin) state_of (asks B.Ask Q.Plugin) state_of }
{}
