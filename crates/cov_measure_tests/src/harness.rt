// Measures programs over objects in memory.
ghost use Rattle.std.specs.Prelude.{◌≡◌, IfOk};
ghost use Rattle.cov_loaded_laws.specs.Loaded.{IsMeasurable};

use cov_data::Data;
use cov_event::ContextPlugin;
use cov_hook::Hook;
use cov_loaded_laws::{loaded_have_text_lines, loaded_programs_are_measured};
use cov_measure::{RunRequest, measure};
use cov_outside::{MemShelf, SureSink, SureSource};
use cov_predict::{ArcSet, possible};
use cov_run::{Loaded, load};
use py_machine::{Engine, Outcome};
use py_syntax::Module;
use py_text::NoMemory;
use std::alloc::{AllocError, Global};
use std::test::Fail;

/// What is measured: the source of a script, that of a hook if there is one, an arc that has no
/// counter, whether arcs or lines are recorded, whether names give labels, and the steps.
#[derive(Clone, Copy)]
pub(crate) struct Case {
    pub(crate) source: &'static str,
    pub(crate) hook: Option<&'static str>,
    pub(crate) left_out: (i32, i32),
    pub(crate) arcs: bool,
    pub(crate) by_name: bool,
    pub(crate) budget: u64,
}

/// What came of it: how the run ended, its steps and output, the data as lines, and its arcs over
/// all contexts.
#[derive(Drop)]
pub(crate) struct Found {
    pub(crate) ended: &'static str,
    pub(crate) steps: u64,
    pub(crate) out: Vec<u8>,
    pub(crate) rows: String,
    pub(crate) arcs: Vec<(i32, i32)>,
}

/// Arcs of a script without a hook or a label, and nothing left out.
pub(crate) const PLAIN: Case = Case {
    source: "",
    hook: None,
    left_out: (0, 0),
    arcs: true,
    by_name: false,
    budget: 1_000_000,
};

/// Loads a file of this source.
fn loaded(alloc: Global, name: &str, source: &str) -> Result<Loaded, Fail>
    ensures { IfOk result (λ l. IsMeasurable l) }
{
    loaded_have_text_lines::<MemShelf>();
    loaded_programs_are_measured();
    let mut files = Vec::new(alloc);
    let bytes = Vec::from_slice(alloc, source.as_bytes())?;
    files.push((String::from_str(alloc, name)?, bytes))?;
    let mut shelf = MemShelf::new(alloc, files, Vec::new(alloc));
    match load(alloc, name, "__main__", &mut shelf) {
        Ok(loaded) => Ok(loaded),
        Err(why) => {
            drop(why);
            Err(Fail::from(AllocError))
        }
    }
}

/// Opens the function `label` of a script of this source.
fn opened(alloc: Global, source: Option<&str>) -> Result<Option<Hook>, Fail> {
    let Some(source) = source else {
        return Ok(None);
    };
    let loaded = loaded(alloc, "hk.py", source)?;
    match Hook::open(alloc, loaded.programs, "label") {
        Ok(hook) => Ok(Some(hook)),
        Err(_) => Err(Fail::from(AllocError)),
    }
}

/// The arcs of a set but for one.
fn without(alloc: Global, set: &ArcSet, left_out: (i32, i32)) -> Result<ArcSet, NoMemory> {
    let mut arcs = Vec::new(alloc);
    for place in 0..set.len() {
        let arc = set.at(place);
        if arc != left_out {
            arcs.push(arc)?;
        }
    }
    Ok(ArcSet::new(arcs))
}

/// The possible arcs of each module but for one.
fn places(
    alloc: Global,
    modules: &[Module],
    left_out: (i32, i32),
) -> Result<Vec<ArcSet>, NoMemory> {
    let mut places = Vec::new(alloc);
    for module in modules {
        let set = possible(alloc, module)?;
        places.push(without(alloc, &set, left_out)?)?;
    }
    Ok(places)
}

fn request(alloc: Global, case: &Case) -> Result<RunRequest, NoMemory> {
    Ok(RunRequest {
        script: String::from_str(alloc, "p.py")?,
        args: Vec::new(alloc),
        arcs: case.arcs,
        fixed: String::new(alloc),
        by_name: case.by_name,
        hook: None,
        budget: case.budget,
    })
}

/// A line for each row: its context, numbers and count.
fn listed(alloc: Global, data: &Data) -> Result<String, NoMemory> {
    let mut lines = String::new(alloc);
    for row in &data.rows()? {
        let context = row.context.as_str();
        let line = format!(in alloc; "{context}: {} {} {}\n", row.from, row.to, row.count)?;
        lines.push_str(line.as_str())?;
    }
    Ok(lines)
}

fn name_of(outcome: &Outcome) -> &'static str {
    match outcome {
        Outcome::Finished => "finished",
        Outcome::Exited(..) => "exited",
        Outcome::Raised(..) => "raised",
        Outcome::Cut => "cut",
    }
}

/// Measures a script by this engine, under labels of these plugins.
pub(crate) fn measure_script<G: Engine>(
    alloc: Global,
    case: &Case,
    plugins: &mut Vec<Box<dyn ContextPlugin>>,
    engine: &mut G,
) -> Result<Found, Fail> {
    let script = loaded(alloc, "p.py", case.source)?;
    let hook = opened(alloc, case.hook)?;
    let places = places(alloc, script.modules.as_slice(), case.left_out)?;
    let request = request(alloc, case)?;
    let mut input = SureSource::new(Vec::new(alloc));
    let mut out = SureSink::new(alloc, Vec::new(alloc));
    match measure(
        alloc,
        &request,
        &script.programs,
        places,
        hook,
        &mut input,
        &mut out,
        plugins,
        engine,
    ) {
        Ok(measured) => Ok(Found {
            ended: name_of(&measured.outcome),
            steps: measured.steps,
            out: out.into_bytes(),
            rows: listed(alloc, &measured.rows)?,
            arcs: measured.rows.arcs("p.py")?,
        }),
        Err(_) => Err(Fail::from(AllocError)),
    }
}
