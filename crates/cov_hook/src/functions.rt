// The functions of a script.
ghost use Rattle.std.specs.Prelude.{◌≡◌, ◌<◌, ◌↔◌, length, map, Contains, IsTrue};
ghost use Rattle.std.specs.Str.{chars};
ghost use Rattle.py_code.specs.Loaded.{modules_of};
ghost use Rattle.py_code.specs.Units.{plain_unit};
ghost use Rattle.cov_hook.specs.Functions.{Defines, name_of};

use py_code::{Programs, Unit};

/// Whether the script defines a function of this name.
pub fn defines(programs: &Programs, function: &str) -> bool
    requires { 0 < length (modules_of programs.now) }
    ensures { IsTrue result ↔ Defines (modules_of programs.now) (chars function.now) }
{
    let units = programs.modules[0].code.units();
    is_among(&units[1..], function)
}

/// Whether one of the units has this name.
fn is_among(units: &[Unit], function: &str) -> bool
    ensures { IsTrue result
        ↔ Contains (map name_of (map plain_unit units.now)) (chars function.now) }
{
    for unit in units {
        if is_named(unit, function) {
            return true;
        }
    }
    false
}

fn is_named(unit: &Unit, function: &str) -> bool
    ensures { IsTrue result ↔ (unit.now.name ≡ chars function.now) }
{
    unit.name.as_str() == function
}
