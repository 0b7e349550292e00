// A law of what events tell.
ghost use Rattle.cov_recorder.specs.Asking.{asks, SourcesLeft};
ghost use Rattle.cov_recorder.specs.Laws.{RecordingLaw};
ghost use Rattle.cov_recorder.specs.States.{state_of};

use cov_contexts::Plugin;
use cov_event::Ask;

/// What a new recorder keeps of any list of events are the paths and rows that the whole list
/// tells, each row with the number of its places. An event that was refused tells nothing, and it
/// leaves hook and plugins where their answers brought them.
pub fn recorded_rows<A: Ask, P: Plugin>()
    ensures { RecordingLaw (asks A.Ask P.Plugin) (SourcesLeft A.Ask P.Plugin) state_of }
{}
