// Where to look first for the arc of a step.
ghost use Rattle.std.specs.Prelude.{◌<◌, ◌^◌};

use cov_predict::ArcSet;
use py_text::NoMemory;
use std::alloc::Global;
use std::marker::Model;

/// The last line that a text may have. No step comes from beyond it, so no hint is kept there.
const LAST_LINE: i32 = 65_535;

/// For each module, and each line that a step may come from, a place in the module's set. Line 0
/// stands for the outside. A place may be one of another arc, so who looks there compares.
#[derive(Drop)]
pub(crate) struct Hints {
    modules: Vec<Vec<u32>>,
}

// Clauses see nothing of hints: a wrong one costs a search, and changes no count.
impl Model for Hints {
    ghost use Rattle.std.specs.Prelude.{⊤};

    ghost Value = { ⊤ };

    ghost view = { λ _. tt };
}

impl Hints {
    /// Hints at the first arc from each line, so that code with no branch needs no search.
    pub(crate) fn of_sets(alloc: Global, sets: &[ArcSet]) -> Result<Hints, NoMemory> {
        let mut modules = Vec::new(alloc);
        for set in sets {
            modules.push(first_places(alloc, set)?)?;
        }
        Ok(Hints { modules })
    }

    /// The place to look at for an arc of a module from here, if its line has one.
    pub(crate) fn look(&self, module: u32, from: i32) -> Option<u64> {
        let places = self.modules.get(module as usize)?;
        let place = places.get(line_of(from))?;
        Some(*place as u64)
    }

    /// The next look from here is to be at this place.
    pub(crate) fn keep(&mut self, module: u32, from: i32, place: u64) {
        let module = module as usize;
        if module < self.modules.len() {
            put(&mut self.modules[module], from, place);
        }
    }
}

/// For each line the place of the first arc from it.
fn first_places(alloc: Global, set: &ArcSet) -> Result<Vec<u32>, NoMemory> {
    let mut places = vec![in alloc; 0; lines_of(set)]?;
    let count = set.len();
    // From the back, so that the first arc from a line is written last.
    for after in 0..count {
        let place = count - 1 - after;
        put(&mut places, set.at(place).0, place);
    }
    Ok(places)
}

/// How many lines have a hint: those up to the greatest from which an arc comes, and the outside.
fn lines_of(set: &ArcSet) -> usize {
    let count = set.len();
    if count == 0 {
        return 0;
    }
    let last = set.at(count - 1).0;
    line_of(last.min(LAST_LINE)) + 1
}

fn put(places: &mut Vec<u32>, from: i32, place: u64) {
    let line = line_of(from);
    if line < places.len() && place <= u32::MAX as u64 {
        places[line] = place as u32;
    }
}

/// The line that an arc comes from. It is 0 for the outside.
fn line_of(from: i32) -> usize
    ensures { result < 2 ^ 31 }
{
    if from > 0 { from as usize } else { 0 }
}
