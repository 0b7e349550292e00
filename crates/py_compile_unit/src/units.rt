// The units of a module's body and of its functions.

ghost use Rattle.std.specs.Prelude.{◌≡◌, map, IfOk};
ghost use Rattle.py_code.specs.Units.{plain_unit};
ghost use Rattle.py_compile_expr.specs.CellView.{plain_cell};
ghost use Rattle.py_compile_unit.specs.Defs.{definition_of, own_names, unit_with, body_unit_with};

use crate::functions::Def;
use crate::unit::{Heading, unit_of};
use py_code::Unit;
use py_compile_expr::{Cell, count};
use py_text::{NoMemory, Text};
use std::alloc::Global;

/// The unit of the body of a module, which has these cells.
pub fn body_unit(alloc: Global, cells: &[Cell]) -> Result<Unit, NoMemory>
    ensures { IfOk result (λ u. plain_unit u ≡ body_unit_with (map plain_cell cells.now)) }
{
    let heading = Heading {
        name: Text::new(alloc),
        first: 1,
        params: Vec::new(alloc),
        defaults: 0,
    };
    unit_of(alloc, heading, &[], cells)
}

/// The unit of a function with these local names, whose body has these cells.
pub fn function_unit(
    alloc: Global,
    def: &Def,
    own: &[Text],
    cells: &[Cell],
) -> Result<Unit, NoMemory>
    requires { own.now ≡ own_names (definition_of def.now) }
    ensures { IfOk result (λ u. plain_unit u
        ≡ unit_with (definition_of def.now) (map plain_cell cells.now)) }
{
    let heading = heading_of(alloc, def)?;
    unit_of(alloc, heading, own, cells)
}

/// What stands at the head of a function.
fn heading_of(alloc: Global, def: &Def) -> Result<Heading, NoMemory>
    ensures name { IfOk result (λ h. h.name ≡ (definition_of def.now).function.name) }
    ensures first { IfOk result (λ h. h.first ≡ (definition_of def.now).function.line) }
    ensures params { IfOk result (λ h. h.params.items
        ≡ (definition_of def.now).function.params) }
    ensures defaults { IfOk result (λ h. h.defaults ≡ (definition_of def.now).defaults) }
{
    let defaults = count(def.defaults)?;
    let params = copied(alloc, def.params)?;
    let name = def.name.copy()?;
    Ok(Heading {
        name,
        first: def.line,
        params,
        defaults,
    })
}

/// Equal texts.
fn copied(alloc: Global, texts: &[Text]) -> Result<Vec<Text>, NoMemory>
    ensures { IfOk result (λ v. v.items ≡ texts.now) }
{
    let mut copies = Vec::new(alloc);
    for text in texts {
        let copy = text.copy()?;
        copies.push(copy)?;
    }
    Ok(copies)
}
