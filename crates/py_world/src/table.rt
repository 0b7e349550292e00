// The names of a module, numbered.
ghost use Rattle.std.specs.Prelude.{◌≡◌, [], length, map, IfOk};
ghost use Rattle.py_world.specs.Globals.{names_of};
ghost use Rattle.py_world.specs.Links.{numbers_count, names_count};
ghost use Rattle.py_world.specs.Numbered.{plain_global, without_value};

use crate::globals::{Global, Globals};
use crate::name::Name;
use indexmap::IndexSet;
use py_code::Unit;
use py_value::{NoMemory, Text};
use std::alloc::Global as Alloc;

/// Names in the order of their numbers.
#[derive(Drop)]
pub struct Table {
    names: IndexSet<Text>,
}

impl Table {
    pub fn new(alloc: Alloc) -> Table
        ensures { result.names.keys ≡ [] }
    {
        Table {
            names: IndexSet::new(alloc),
        }
    }

    /// The numbers of the names of units, one for each name.
    pub fn add_units(&mut self, alloc: Alloc, units: &[Unit]) -> Result<Vec<Vec<usize>>, NoMemory>
        ensures { IfOk result (λ links.
            map numbers_count links.items ≡ map names_count units.now) }
    {
        let mut links = Vec::with_capacity(alloc, units.len())?;
        for unit in units {
            links.push(self.add_names(alloc, &unit.names)?)?;
        }
        Ok(links)
    }

    fn add_names(&mut self, alloc: Alloc, names: &[Text]) -> Result<Vec<usize>, NoMemory>
        ensures { IfOk result (λ numbers. length numbers.items ≡ length names.now) }
    {
        let mut numbers = Vec::with_capacity(alloc, names.len())?;
        for name in names {
            numbers.push(self.add(name)?)?;
        }
        Ok(numbers)
    }

    /// The number of a name, the next one for a new name.
    fn add(&mut self, name: &Text) -> Result<usize, NoMemory> {
        let (number, _) = self.names.insert_full(name.copy()?)?;
        Ok(number)
    }

    /// Globals with these names, none of which is set.
    pub fn globals(&self, alloc: Alloc) -> Result<Globals, NoMemory>
        ensures { IfOk result (λ globals. names_of globals ≡ []) }
    {
        let items = unset_globals(alloc, self.names.as_slice())?;
        Ok(Globals::of_names(items, alloc))
    }
}

/// Names, none of which is set.
fn unset_globals(alloc: Alloc, names: &[Text]) -> Result<Vec<Global>, NoMemory>
    ensures { IfOk result (λ globals.
        map plain_global globals.items ≡ map without_value names.now) }
{
    let mut globals = Vec::with_capacity(alloc, names.len())?;
    for name in names {
        let name = Name::of(name)?;
        globals.push(Global { name, value: None })?;
    }
    Ok(globals)
}
