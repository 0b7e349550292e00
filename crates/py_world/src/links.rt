// Where names of units stand among globals.
ghost use Rattle.std.specs.Prelude.{◌≡◌, map, IfOk};
ghost use Rattle.py_world.specs.Links.{numbers_in, units_in, links_in, link_of};

use cov_event::CodeId;
use py_value::NoMemory;
use std::alloc::Global;

/// For each unit of each module, the numbers of its names among the globals of the module. Whoever
/// looks at such a number looks whether the name stands there.
#[derive(Drop)]
pub struct Links {
    pub modules: Vec<Vec<Vec<usize>>>,
}

impl Links {
    /// Where a name of a unit may stand.
    pub fn number(&self, code: CodeId, n: u32) -> Option<usize>
        ensures { result ≡ link_of (links_in self.now.modules.items) code n }
    {
        match self.modules.get(code.module as usize) {
            None => None,
            Some(units) => match units.get(code.unit as usize) {
                None => None,
                Some(numbers) => match numbers.get(n as usize) {
                    None => None,
                    Some(number) => Some(*number),
                },
            },
        }
    }

    /// Equal numbers.
    pub fn copy(&self, alloc: Global) -> Result<Links, NoMemory>
        ensures { IfOk result (λ copy.
            links_in copy.modules.items ≡ links_in self.now.modules.items) }
    {
        let mut modules = Vec::with_capacity(alloc, self.modules.len())?;
        for units in &self.modules {
            modules.push(copy_units(alloc, units)?)?;
        }
        Ok(Links { modules })
    }
}

fn copy_units(alloc: Global, units: &[Vec<usize>]) -> Result<Vec<Vec<usize>>, NoMemory>
    ensures { IfOk result (λ copies. map numbers_in copies.items ≡ map numbers_in units.now) }
{
    let mut copies = Vec::with_capacity(alloc, units.len())?;
    for numbers in units {
        copies.push(copy_numbers(alloc, numbers)?)?;
    }
    Ok(copies)
}

fn copy_numbers(alloc: Global, numbers: &[usize]) -> Result<Vec<usize>, NoMemory>
    ensures { IfOk result (λ copies. copies.items ≡ numbers.now) }
{
    numbers.iter().copied().collect(alloc)
}
