//! That the prediction of a program's arcs is sound: a law over what programs mean and what their
//! text alone tells. Each function below does nothing, and stands for the law that its contract
//! states.
#![tactic(auto)]

ghost use Rattle.py_prediction_laws.specs.Sound.{ProgramSoundness, ModulesSoundness, CallSoundness};

/// Each arc of each activation of a program's run is possible in its module, and each that isn't
/// predicted was thrown.
pub fn foreseen_arcs()
    ensures { ProgramSoundness }
{}

/// The same of a list of modules, whatever they were loaded from.
pub fn foreseen_arcs_of_modules()
    ensures { ModulesSoundness }
{}

/// The same of one call.
pub fn foreseen_arcs_of_call()
    ensures { CallSoundness }
{}
