// The units of a module: that of its body, and one for each `def`.

ghost use Rattle.std.specs.Prelude.{◌≡◌, ◌<◌, List, Some, ◌++◌, length, map, slice_get, IfOk, OnOk};
ghost use Rattle.py_code.specs.Units.{plain_unit};
ghost use Rattle.py_code.specs.Valid.{most_units};
ghost use Rattle.py_compile.specs.Definitions.{definitions};
ghost use Rattle.py_compile.specs.Units.{module_code, function_code, units_code};
ghost use Rattle.py_compile_module.specs.Scoped.{names_of_def, DefsBeginAt};
ghost use Rattle.py_scope.specs.Faults.{IsWellFormed, functions_of};
ghost use Rattle.py_syntax.specs.Functions.{Function};
ghost use Rattle.py_syntax.specs.View.{plain_module};
ghost use Rattle.py_compile_unit.specs.Defs.{definition_of};

use py_code::{MOST_UNITS, Unit};
use py_compile::units_are_faithful;
use py_compile_body::{Defs, body_cells};
use py_compile_unit::{Def, body_unit, function_unit, functions_of, lines_of};
use py_scope::Scopes;
use py_syntax::Module;
use py_text::NoMemory;
use std::alloc::{AllocError, Global};

/// The units of a module, its body first, where there is room for them all.
pub(crate) fn units_of(
    alloc: Global,
    module: &Module,
    scopes: &Scopes,
) -> Result<Vec<Unit>, NoMemory>
    requires well_formed { IsWellFormed (plain_module «module».now) }
    requires scopes { scopes.now ≡ functions_of (plain_module «module».now) }
    ensures units { IfOk result (λ us. map plain_unit us.items
        ≡ units_code (plain_module «module».now)) }
    ensures few { IfOk result (λ us.
        length (definitions (plain_module «module».now)) < most_units) }
{
    units_are_faithful();
    let defs = functions_of(alloc, module)?;
    let count = defs.len();
    if count >= MOST_UNITS {
        drop(defs);
        return Err(AllocError);
    }
    let lines = lines_of(alloc, &defs)?;
    let places = Defs::new(alloc, lines)?;
    let cells = body_cells(alloc, &places, &module.body)?;
    let body = body_unit(alloc, cells.cells())?;
    let mut units = Vec::new(alloc);
    units.push(body)?;
    add_functions(alloc, &mut units, &places, scopes, &defs)?;
    Ok(units)
}

/// Adds the units of functions that have these names.
fn add_functions(
    alloc: Global,
    units: &mut Vec<Unit>,
    places: &Defs,
    scopes: &Scopes,
    defs: &[Def],
) -> Result<(), NoMemory>
    requires { scopes.now ≡ map names_of_def (map definition_of defs.now) }
    ensures { OnOk result ((fs : List Function) → DefsBeginAt fs places.now
        → map plain_unit units.new.items ≡ map plain_unit units.old.items
        ++ map (function_code fs) (map definition_of defs.now)) }
{
    for (at, def) in defs.iter().enumerate() {
        let unit = unit_of(alloc, places, scopes, at, def)?;
        units.push(unit)?;
    }
    Ok(())
}

/// The unit of the function whose `def` has so many before it.
fn unit_of(
    alloc: Global,
    places: &Defs,
    scopes: &Scopes,
    at: usize,
    def: &Def,
) -> Result<Unit, NoMemory>
    requires { slice_get scopes.now at ≡ Some (names_of_def (definition_of def.now)) }
    ensures { IfOk result (λ u. (fs : List Function) → DefsBeginAt fs places.now
        → plain_unit u ≡ function_code fs (definition_of def.now)) }
{
    let names = scopes.function(at).unwrap();
    let own = names.locals(alloc)?;
    let cells = body_cells(alloc, places, def.body)?;
    function_unit(alloc, def, &own, cells.cells())
}
