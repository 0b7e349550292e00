// Laws of the arcs that events tell.
ghost use Rattle.cov_arcs.specs.Laws.{ProgramArcsLaw, ModulesArcsLaw, CallArcsLaw, BeginningLaw};
ghost use Rattle.cov_arcs.specs.Tracing.{TracingLaw};

/// The events of a program's run tell the arcs of its meaning, in each module, also where the run
/// was cut. A tracer that took them keeps these arcs.
pub fn told_arcs()
    ensures { ProgramArcsLaw }
{}

/// The same of a list of modules, whatever they were loaded from.
pub fn told_arcs_of_modules()
    ensures { ModulesArcsLaw }
{}

/// The same of one call.
pub fn told_arcs_of_call()
    ensures { CallArcsLaw }
{}

/// What a tracer keeps of any list of events are the arcs that they tell, in each module of its
/// table, and the arcs that it kept before.
pub fn kept_arcs()
    ensures { TracingLaw }
{}

/// What some first events tell is the beginning of what all tell.
pub fn told_arcs_of_first_events()
    ensures { BeginningLaw }
{}
