// Units by their numbers.
ghost use Rattle.std.specs.Prelude.{◌≡◌, Some, None, MatchOption};
ghost use Rattle.cov_recorder.specs.Plan.{named, unit_at, path_at};
ghost use Rattle.cov_recorder.specs.Names.{names_of};

use crate::names::UnitName;
use cov_event::CodeId;

/// The unit of a piece of code.
pub(crate) fn unit_at(units: &[Vec<UnitName>], code: CodeId) -> Option<&UnitName>
    ensures { MatchOption result (unit_at (names_of units.now) code ≡ None) (λ unit.
        unit_at (names_of units.now) code ≡ Some (named unit.now)) }
{
    match units.get(code.module as usize) {
        Some(names) => names.get(code.unit as usize),
        None => None,
    }
}

/// The path of a module.
pub(crate) fn path_at(units: &[Vec<UnitName>], module: u32) -> &str
    ensures { result.now ≡ path_at (names_of units.now) «module» }
{
    match unit_at(units, CodeId { module, unit: 0 }) {
        Some(body) => body.path.as_str(),
        None => "",
    }
}
