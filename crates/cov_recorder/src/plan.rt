// What is known of a program before it runs.
ghost use Rattle.std.specs.Prelude.{◌≡◌, map, IfOk};
ghost use Rattle.cov_recorder.specs.Names.{names_of};
ghost use Rattle.cov_recorder.specs.Plan.{HaveFirsts, counted, plan_of};

use crate::hints::Hints;
use crate::names::UnitName;
use crate::sets::counted;
use cov_predict::ArcSet;
use py_text::NoMemory;
use std::alloc::Global;
use std::marker::Model;

/// The units of a program, what has a counter in each module, whether arcs or lines are counted,
/// and the static context. A recorder takes it, and hands it on to the next one, with the hints
/// that help to find counters.
#[derive(Drop)]
pub struct RunPlan {
    pub(crate) units: Vec<Vec<UnitName>>,
    pub(crate) sets: Vec<ArcSet>,
    pub(crate) arcs: bool,
    pub(crate) fixed: String,
    pub(crate) hints: Hints,
}

impl Model for RunPlan {
    ghost use Rattle.std.specs.Prelude.{string_bytes};
    ghost use Rattle.cov_recorder.specs.Plan.{HaveFirsts, Plan, plan_with};
    ghost use Rattle.cov_recorder.specs.Names.{names_of};
    ghost use Rattle.cov_recorder.specs.Codes.{plan_code};

    ghost Value = { Plan };

    ghost coded = { plan_code };

    ghost view = { λ p.
        plan_with (names_of p.units.items) p.sets.items p.arcs (string_bytes p.fixed) };

    ghost invariant = { λ p. HaveFirsts (names_of p.units.items) };
}

impl RunPlan {
    /// The plan of these units and sets, as `Recorder::new` takes them.
    pub fn new(
        alloc: Global,
        units: Vec<Vec<UnitName>>,
        places: Vec<ArcSet>,
        arcs: bool,
        fixed: &str,
    ) -> Result<RunPlan, NoMemory>
        requires { HaveFirsts (names_of units.items) }
        ensures { IfOk result (λ plan.
            plan ≡ plan_of (names_of units.items) places.items arcs fixed.now) }
    {
        let fixed = String::from_str(alloc, fixed)?;
        let sets = counted_sets(alloc, arcs, places)?;
        let hints = Hints::of_sets(alloc, &sets)?;
        Ok(RunPlan {
            units,
            sets,
            arcs,
            fixed,
            hints,
        })
    }
}

fn counted_sets(alloc: Global, arcs: bool, places: Vec<ArcSet>) -> Result<Vec<ArcSet>, NoMemory>
    ensures { IfOk result (λ sets. sets.items ≡ map (counted arcs) places.items) }
{
    let mut sets = Vec::new(alloc);
    for set in places {
        sets.push(counted(alloc, arcs, set)?)?;
    }
    Ok(sets)
}
