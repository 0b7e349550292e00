// A tracer that counts the steps of a run under the labels of its calls.
ghost use Rattle.std.specs.Prelude.{◌≡◌, IfOk, IfErr, OnOk, OnErr, IsOk};
ghost use Rattle.cov_event.specs.declared.event.Event.TheVariants.{Call};
ghost use Rattle.cov_recorder.specs.Asking.{asks, SourcesLeft};
ghost use Rattle.cov_recorder.specs.Labels.{question, GetsLabel};
ghost use Rattle.cov_recorder.specs.Recording.{label_now};

use crate::names::UnitName;
use crate::plan::RunPlan;
use crate::records::Records;
use cov_contexts::{Contexts, Plugin};
use cov_data::Data;
use cov_event::{Ask, CodeId, ContextPlugin, Event, Tracer};
use cov_predict::ArcSet;
use py_text::{NoMemory, Text};
use std::alloc::Global;

/// Counts the steps of a run, by the arcs of each module or by its lines, under the labels that
/// `Contexts` gives to calls.
#[derive(Drop)]
pub struct Recorder<A, P = Box<dyn ContextPlugin>> {
    contexts: Contexts<A, P>,
    records: Records,
}

/// Want of memory for a recorder. It hands the contexts back.
#[derive(Drop)]
pub struct NoRecorder<A, P = Box<dyn ContextPlugin>> {
    pub contexts: Contexts<A, P>,
}

impl<A: Ask, P: Plugin> Recorder<A, P> {
    ghost use Rattle.cov_recorder.specs.Plan.{HaveFirsts, plan_of};
    ghost use Rattle.cov_recorder.specs.Names.{names_of};
    ghost use Rattle.cov_recorder.specs.Recording.{at_first};
    ghost use Rattle.cov_recorder.specs.States.{recording_of, sources_of};

    /// `units[m][u]` names unit u of module m, where unit 0 is the module's body. `places[m]` is the
    /// set of the arcs of module m, and steps that aren't in it aren't counted. Without `arcs` the
    /// lines up to the greatest number of the set are counted. `fixed` is the static context.
    pub fn new(
        alloc: Global,
        units: Vec<Vec<UnitName>>,
        places: Vec<ArcSet>,
        arcs: bool,
        fixed: &str,
        contexts: Contexts<A, P>,
    ) -> Result<Recorder<A, P>, NoRecorder<A, P>>
        requires { HaveFirsts (names_of units.items) }
        ensures ok { IfOk result (λ recorder. recording_of recorder
            ≡ at_first (plan_of (names_of units.items) places.items arcs fixed.now)) }
        ensures sources { IfOk result (λ recorder. sources_of recorder ≡ contexts) }
        ensures err { IfErr result (λ refused. refused.contexts ≡ contexts) }
    {
        match RunPlan::new(alloc, units, places, arcs, fixed) {
            Ok(plan) => Recorder::of_plan(alloc, plan, contexts),
            Err(_) => Err(NoRecorder { contexts }),
        }
    }

    /// A recorder of a plan that was made before. It takes memory and time by the number of modules
    /// alone.
    pub fn of_plan(
        alloc: Global,
        plan: RunPlan,
        contexts: Contexts<A, P>,
    ) -> Result<Recorder<A, P>, NoRecorder<A, P>>
        ensures ok { IfOk result (λ recorder. recording_of recorder ≡ at_first plan) }
        ensures sources { IfOk result (λ recorder. sources_of recorder ≡ contexts) }
        ensures err { IfErr result (λ refused. refused.contexts ≡ contexts) }
    {
        match Records::new(alloc, plan) {
            Ok(records) => Ok(Recorder { contexts, records }),
            Err(_) => Err(NoRecorder { contexts }),
        }
    }

    /// The data of all events, and the plugins that haven't left, in order.
    pub fn finish(self, alloc: Global) -> (Result<Data, NoMemory>, Vec<P>)
        ensures data { IfOk result.0 (λ found. found ≡ (recording_of self).data) }
        ensures plugins { result.1.items ≡ (sources_of self).plugins }
    {
        let (found, plugins, plan) = self.finish_for_next(alloc);
        drop(plan);
        (found, plugins)
    }

    /// The same, and the plan for the recorder of a next run.
    pub fn finish_for_next(self, alloc: Global) -> (Result<Data, NoMemory>, Vec<P>, RunPlan)
        ensures data { IfOk result.0 (λ found. found ≡ (recording_of self).data) }
        ensures plugins { result.1.items ≡ (sources_of self).plugins }
        ensures plan { result.2 ≡ (recording_of self).plan }
    {
        let Recorder { contexts, records } = self;
        let (found, plan) = records.finish(alloc);
        (found, contexts.into_plugins(), plan)
    }
}

impl<A: Ask, P: Plugin> Tracer for Recorder<A, P> {
    ghost use Rattle.cov_recorder.specs.Asking.{asks, IsInFrame, SourcesLeft};
    ghost use Rattle.cov_recorder.specs.Labels.{IsNext, IsRefused};
    ghost use Rattle.cov_recorder.specs.Recording.{Recording};
    ghost use Rattle.cov_recorder.specs.States.{recording_of, state_of};

    ghost moves = { λ old event new.
        IsNext (asks A.Ask P.Plugin) (state_of old) event (state_of new) };

    ghost refused = { λ old event new.
        IsRefused (SourcesLeft A.Ask P.Plugin) (state_of old) event (state_of new) };

    ghost Record = { Recording };

    ghost recorded = { λ recorder. recording_of recorder };

    ghost kept = { λ _ _ _ left. left.0 };

    fn event(&mut self, alloc: Global, ev: &Event) -> Result<(), NoMemory>
        ensures moved { OnOk result (
            IsNext (asks A.Ask P.Plugin) (state_of self.old) ev.now (state_of self.new)) }
        ensures refused { OnErr result (IsRefused (SourcesLeft A.Ask P.Plugin)
            (state_of self.old) ev.now (state_of self.new)) }
        ensures ok { IsInFrame ev.now → IsOk result }
    {
        match *ev {
            Event::Call(code) => {
                let label = label_of(&self.records, &mut self.contexts, alloc, code)?;
                self.records.begin(alloc, code, label)
            }
            Event::Line(line) => {
                self.records.line(line);
                Ok(())
            }
            Event::Throw(_) => Ok(()),
            Event::Return => {
                self.records.leave();
                Ok(())
            }
        }
    }
}

/// The label of a frame that begins for this code: the one in progress, or else what the sources
/// of labels answer.
fn label_of<A: Ask, P: Plugin>(
    records: &Records,
    contexts: &mut Contexts<A, P>,
    alloc: Global,
    code: CodeId,
) -> Result<Option<Text>, NoMemory>
    ensures labels { IfOk result (λ label.
        GetsLabel (asks A.Ask P.Plugin) (label_now records.now.frames)
        (question records.now.plan code) contexts.old label contexts.new) }
    ensures refused { OnErr result (SourcesLeft A.Ask P.Plugin
        records.now.plan records.now.frames (Call code) contexts.old contexts.new) }
{
    match records.asked(code) {
        Some(unit) => contexts.label(alloc, unit.module.as_str(), unit.function.as_str()),
        None => records.label(),
    }
}
