// What rows have in common: names of units, sets of arcs, and data as lines.

ghost use Rattle.std.specs.Prelude.{◌≡◌, IfOk};
ghost use Rattle.cov_recorder.specs.Names.{names_of};
ghost use Rattle.cov_recorder.specs.Plan.{HaveFirsts, IsFirst};

use cov_data::Data;
use cov_predict::ArcSet;
use cov_recorder::UnitName;
use py_value::NoMemory;
use std::alloc::Global;

/// A unit of a module, which has a path and a name.
fn unit(
    alloc: Global,
    module: (&str, &str),
    function: &str,
    first: u32,
) -> Result<UnitName, NoMemory>
    ensures { IfOk result (λ unit. unit.first ≡ first) }
{
    Ok(UnitName {
        path: String::from_str(alloc, module.0)?,
        module: String::from_str(alloc, module.1)?,
        function: String::from_str(alloc, function)?,
        first,
    })
}

/// The units of one module: its body, and two functions that begin in these lines.
pub(crate) fn units(
    alloc: Global,
    module: (&str, &str),
    first: (&str, u32),
    second: (&str, u32),
) -> Result<Vec<Vec<UnitName>>, NoMemory>
    requires first { IsFirst first.1 }
    requires second { IsFirst second.1 }
    ensures { IfOk result (λ units. HaveFirsts (names_of units.items)) }
{
    let mut names = Vec::new(alloc);
    names.push(unit(alloc, module, "", 1)?)?;
    names.push(unit(alloc, module, first.0, first.1)?)?;
    names.push(unit(alloc, module, second.0, second.1)?)?;
    let mut units = Vec::new(alloc);
    units.push(names)?;
    Ok(units)
}

/// The set of these arcs, as that of the first module.
pub(crate) fn places(alloc: Global, arcs: &[(i32, i32)]) -> Result<Vec<ArcSet>, NoMemory> {
    let mut places = Vec::new(alloc);
    places.push(ArcSet::new(Vec::from_slice(alloc, arcs)?))?;
    Ok(places)
}

/// The paths of data, and a line for each row: its context, numbers and count.
pub(crate) fn listed(alloc: Global, data: &Data) -> Result<String, NoMemory> {
    let mut lines = String::new(alloc);
    for path in &data.paths()? {
        lines.push_str(path.as_str())?;
        lines.push('\n')?;
    }
    for row in &data.rows()? {
        let context = row.context.as_str();
        let line = format!(in alloc; "{context}: {} {} {}\n", row.from, row.to, row.count)?;
        lines.push_str(line.as_str())?;
    }
    Ok(lines)
}
