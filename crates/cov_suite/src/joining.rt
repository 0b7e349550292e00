// Data that are added to others.
ghost use Rattle.std.specs.Prelude.{◌≡◌, IfOk};
ghost use Rattle.cov_data.specs.DataSet.{union};

use cov_data::{Data, NoMemory};

/// The paths and rows of both. The time is that of the rows that are added.
pub(crate) fn add_data(all: Data, other: &Data) -> Result<Data, NoMemory>
    requires { all.arcs ≡ other.now.arcs }
    ensures { IfOk result (λ both. both ≡ union all other.now) }
{
    let paths = other.paths()?;
    let mut both = all;
    for path in &paths {
        both = both.with_file(path.as_str(), other, path.as_str())?;
    }
    Ok(both)
}
