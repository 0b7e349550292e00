// Code of one's own.
ghost use Rattle.std.specs.Prelude.{◌≡◌, map, IfOk};
ghost use Rattle.cov_mutate.specs.Code.{code_of, source_of, sources};
ghost use Rattle.py_code.specs.Loaded.{module_of, modules_of};
ghost use Rattle.py_scope.specs.Faults.{IsWellFormed, functions_of};
ghost use Rattle.py_syntax.specs.View.{plain_module};

use py_code::{Program, Programs};
use py_compile_module::compile;
use py_scope::{Scopes, check};
use py_syntax::Module;
use py_text::NoMemory;
use std::alloc::{AllocError, Global};

/// The names of the functions of a module. One that isn't well formed has none.
pub(crate) fn scopes_of(alloc: Global, module: &Module) -> Result<Scopes, NoMemory>
    ensures well_formed { IfOk result (λ s. IsWellFormed (plain_module «module».now)) }
    ensures names { IfOk result (λ s. s ≡ functions_of (plain_module «module».now)) }
{
    match check(alloc, module) {
        Ok(scopes) => Ok(scopes),
        Err(_) => Err(AllocError),
    }
}

/// The code of a module, under the name and the path of a program.
fn program_of(alloc: Global, program: &Program, module: &Module) -> Result<Program, NoMemory>
    ensures { IfOk result (λ p. module_of p ≡ code_of (source_of program.now «module».now)) }
{
    let scopes = scopes_of(alloc, module)?;
    let code = compile(alloc, module, &scopes)?;
    let name = String::from_str(alloc, program.name.as_str())?;
    let path = String::from_str(alloc, program.path.as_str())?;
    Ok(Program { name, path, code })
}

/// The code of the modules, under the names and paths of programs.
pub(crate) fn compiled(
    alloc: Global,
    modules: &[Module],
    programs: &Programs,
) -> Result<Programs, NoMemory>
    ensures { IfOk result (λ copy. modules_of copy
        ≡ map code_of (sources programs.now.modules.items modules.now)) }
{
    let mut copies = Vec::new(alloc);
    let count = programs.modules.len().min(modules.len());
    for i in 0..count {
        let copied = program_of(alloc, &programs.modules[i], &modules[i])?;
        copies.push(copied)?;
    }
    Ok(Programs { modules: copies })
}
