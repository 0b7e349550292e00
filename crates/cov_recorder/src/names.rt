// The names of units.
ghost use Rattle.std.specs.Prelude.{◌≡◌, IfOk};

use py_text::NoMemory;
use std::alloc::Global;

/// The path of a unit's file, the name of its module, its own name, and its first line, counted from
/// 1. The name of a module's body is empty.
#[derive(Drop)]
pub struct UnitName {
    pub path: String,
    pub module: String,
    pub function: String,
    pub first: u32,
}

impl UnitName {
    ghost use Rattle.cov_recorder.specs.Plan.{named};

    /// An equal name.
    pub fn copy(&self, alloc: Global) -> Result<UnitName, NoMemory>
        ensures { IfOk result (λ name. named name ≡ named self.now) }
    {
        Ok(UnitName {
            path: String::from_str(alloc, self.path.as_str())?,
            module: String::from_str(alloc, self.module.as_str())?,
            function: String::from_str(alloc, self.function.as_str())?,
            first: self.first,
        })
    }
}
