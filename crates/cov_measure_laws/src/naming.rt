// The units of programs, as a recorder wants them.
ghost use Rattle.std.specs.Prelude.{◌≡◌, map, IfOk};
ghost use Rattle.py_code.specs.Units.{plain_unit};
ghost use Rattle.cov_recorder.specs.Names.{names_of};
ghost use Rattle.cov_recorder.specs.Plan.{named};
ghost use Rattle.cov_measure_laws.specs.Units.{program_units, unit_name};

use cov_recorder::UnitName;
use py_code::{Program, Programs, Unit};
use py_text::NoMemory;
use std::alloc::Global;

/// The names of the units of each program.
pub fn units_of(alloc: Global, programs: &Programs) -> Result<Vec<Vec<UnitName>>, NoMemory>
    ensures { IfOk result (λ units.
        names_of units.items ≡ program_units programs.now.modules.items) }
{
    let mut units = Vec::new(alloc);
    for program in &programs.modules {
        let names = unit_names(alloc, program, program.code.units())?;
        units.push(names)?;
    }
    Ok(units)
}

fn unit_names(alloc: Global, program: &Program, units: &[Unit]) -> Result<Vec<UnitName>, NoMemory>
    ensures { IfOk result (λ names.
        map named names.items ≡ map (unit_name program.now) (map plain_unit units.now)) }
{
    let mut names = Vec::new(alloc);
    for unit in units {
        let name = name_of(alloc, program, unit)?;
        names.push(name)?;
    }
    Ok(names)
}

fn name_of(alloc: Global, program: &Program, unit: &Unit) -> Result<UnitName, NoMemory>
    ensures { IfOk result (λ name. named name ≡ unit_name program.now (plain_unit unit.now)) }
{
    Ok(UnitName {
        path: String::from_str(alloc, program.path.as_str())?,
        module: String::from_str(alloc, program.name.as_str())?,
        function: String::from_str(alloc, unit.name.as_str())?,
        first: unit.first,
    })
}
