// The code of a module.

ghost use Rattle.std.specs.Prelude.{◌≡◌, IfOk};
ghost use Rattle.py_compile.specs.ProgramRuns.{HasUnits};
ghost use Rattle.py_compile.specs.Units.{units_code};
ghost use Rattle.py_scope.specs.Faults.{IsWellFormed, functions_of};
ghost use Rattle.py_syntax.specs.View.{plain_module};

use crate::units::units_of;
use py_code::Code;
use py_code_laws::code_fits;
use py_compile::{programs_run, units_are_faithful};
use py_scope::Scopes;
use py_syntax::Module;
use py_text::NoMemory;
use std::alloc::Global;

/// The code of a module without a fault of scope, where `scopes` are what `check` answered for it.
/// A machine that runs it does what the module means (`traces_kept` of `py_compile_laws`). Only
/// memory can be wanting; 4,294,967,295 `def`s or more are want of memory, too.
pub fn compile(alloc: Global, module: &Module, scopes: &Scopes) -> Result<Code, NoMemory>
    requires well_formed { IsWellFormed (plain_module «module».now) }
    requires scopes { scopes.now ≡ functions_of (plain_module «module».now) }

    // It is faithful to the module, and it is exactly the code of the definition.
    ensures faithful { IfOk result (λ c. HasUnits (plain_module «module».now) c) }
    ensures exact { IfOk result (λ c. c ≡ units_code (plain_module «module».now)) }
{
    programs_run();
    units_are_faithful();
    code_fits();
    let units = units_of(alloc, module, scopes)?;
    Ok(Code::new(units))
}
