// Units of cells.

ghost use Rattle.std.specs.Prelude.{◌≡◌, [], map, IfOk};
ghost use Rattle.py_code.specs.Units.{plain_unit};
ghost use Rattle.py_compile.specs.Units.{unit_of_cells};
ghost use Rattle.py_compile_expr.specs.CellView.{plain_cell};
ghost use Rattle.py_syntax.specs.Names.{distinct};
ghost use Rattle.py_compile_unit.specs.Lists.{plain_heading};

use crate::constants::Constants;
use crate::handlers::handlers_of;
use crate::lines::Lines;
use crate::names::Names;
use crate::numbering::{Lists, numbered};
use py_code::{Constant, Unit};
use py_compile_expr::Cell;
use py_text::{NoMemory, Text};
use std::alloc::Global;

/// Of a function: its name, empty for the body of a module, its first line, its parameters, and how
/// many of the last of them have defaults.
#[derive(Drop)]
pub struct Heading {
    pub name: Text,
    pub first: u32,
    pub params: Vec<Text>,
    pub defaults: u32,
}

/// The unit of cells, with these names in its slots, each once.
pub fn unit_of(
    alloc: Global,
    heading: Heading,
    own: &[Text],
    cells: &[Cell],
) -> Result<Unit, NoMemory>
    ensures { IfOk result (λ u. plain_unit u
        ≡ unit_of_cells (plain_heading heading) heading.defaults (distinct own.now)
        (map plain_cell cells.now)) }
{
    let own = Names::of(alloc, own)?;
    let mut lists = Lists {
        own,
        names: Names::new(alloc),
        constants: Constants::new(alloc),
        lines: Lines::new(alloc),
    };
    let instrs = numbered(alloc, &mut lists, cells)?;
    let handlers = handlers_of(alloc, cells)?;
    let named = listed(alloc, &lists)?;
    let Heading {
        name,
        first,
        params,
        defaults,
    } = heading;
    let Named {
        locals,
        names,
        constants,
        lines,
    } = named;
    Ok(Unit {
        name,
        first,
        params,
        defaults,
        locals,
        names,
        constants,
        instrs,
        lines,
        handlers,
    })
}

/// What the instructions of a unit name, as a unit keeps it.
#[derive(Drop)]
struct Named {
    locals: Vec<Text>,
    names: Vec<Text>,
    constants: Vec<Constant>,
    lines: Vec<u32>,
}

fn listed(alloc: Global, lists: &Lists) -> Result<Named, NoMemory>
    ensures locals { IfOk result (λ r. r.locals.items ≡ lists.now.own) }
    ensures names { IfOk result (λ r. r.names.items ≡ lists.now.names) }
    ensures constants { IfOk result (λ r. r.constants.items ≡ lists.now.constants) }
    ensures lines { IfOk result (λ r. r.lines.items ≡ lists.now.lines) }
{
    let locals = lists.own.texts(alloc)?;
    let names = lists.names.texts(alloc)?;
    let constants = lists.constants.list(alloc)?;
    let lines = lists.lines.list(alloc)?;
    Ok(Named {
        locals,
        names,
        constants,
        lines,
    })
}
