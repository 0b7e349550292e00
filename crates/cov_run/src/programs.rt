//! Loads a program: the code of its modules, and their trees.

ghost use Rattle.std.specs.Prelude.{◌≡◌, ◌≤◌, length, IfOk, IsErrOf, string_bytes, encode_utf8_all};
ghost use Rattle.std.specs.Str.{chars};
ghost use Rattle.cov_outside.specs.Counts.{Rose};
ghost use Rattle.py_code.specs.Loaded.{modules_of};
ghost use Rattle.py_compile.specs.ProgramRuns.{AreFaithful, HasUnits};
ghost use Rattle.py_meaning.specs.Loading.{loaded};
ghost use Rattle.py_scope.specs.Faults.{IsWellFormed};
ghost use Rattle.py_compile_laws.specs.Traces.{AreWellFormed};
ghost use Rattle.cov_why.specs.Answers.{AnsweredAs};
ghost use Rattle.cov_run.specs.Loading.{program_of, told_by};
ghost use Rattle.cov_run.specs.Loads.{EndsFailed, HavePaths, IsCompiled, Loads, LoadsTo, loaded_module, loaded_modules};
ghost use Rattle.cov_run.specs.View.{plain_source, plain_sources};

use crate::loaded::LoadedSource;
use crate::loading::load_sources;
use cov_outside::Shelf;
use cov_why::Why;
use py_code::{Program, Programs};
use py_compile_module::compile;
use py_syntax::Module;
use py_text::NoMemory;
use std::alloc::Global;

/// A program: the code of its modules, and beside it their trees, in the same order.
#[derive(Drop)]
pub struct Loaded {
    pub programs: Programs,
    pub modules: Vec<Module>,
}

/// Loads the script as the module `name`, and then in order the modules that the loaded ones
/// import, as `load_sources` does, and compiles each.
pub fn load<H: Shelf>(alloc: Global, script: &str, name: &str, shelf: &mut H) -> Result<Loaded, Why>
    ensures told { H.tells → AnsweredAs loaded_modules result (LoadsTo
        (told_by (H.files shelf.old) (chars script.now)) (chars script.now) (chars name.now)) }
    // The meaning of the language loads the same modules from the trees of their files.
    ensures meant { H.tells → IfOk result (λ l.
        loaded (program_of (chars script.now) (chars name.now) (loaded_modules l))
        ≡ loaded_modules l) }
    // What a shelf answers is passed on as it came.
    ensures loads { AnsweredAs loaded_modules result (λ loading.
        Loads H.reads shelf.old (chars script.now) (chars name.now) loading shelf.new) }
    ensures code { IfOk result (λ l. IsCompiled l) }
    ensures failed { IsErrOf result Why.ShelfFault → EndsFailed H.reads shelf.old
        (chars script.now) (chars name.now) shelf.new }
    ensures fault { IsErrOf result Why.ShelfFault
        → Rose (H.faults shelf.old) (H.faults shelf.new) }
    ensures count { H.faults shelf.old ≤ H.faults shelf.new }
    ensures kept { H.tells → H.files shelf.new ≡ H.files shelf.old }
{
    let sources = load_sources(alloc, script, name, shelf)?;
    match compiled(alloc, sources) {
        Ok(loaded) => Ok(loaded),
        Err(_) => Err(Why::NoMemory),
    }
}

/// The code of each source, beside its tree.
fn compiled(alloc: Global, sources: Vec<LoadedSource>) -> Result<Loaded, NoMemory>
    ensures modules { IfOk result (λ l. loaded_modules l ≡ plain_sources sources.items) }
    ensures beside { IfOk result (λ l.
        length l.modules.items ≡ length l.programs.modules.items) }
    ensures faithful { IfOk result (λ l.
        AreFaithful (modules_of l.programs) (plain_sources sources.items)) }
    ensures well_formed { IfOk result (λ l. AreWellFormed (plain_sources sources.items)) }
    ensures paths { IfOk result (λ l. HavePaths l.programs.modules.items (loaded_modules l)) }
{
    let mut programs = Vec::new(alloc);
    let mut modules = Vec::new(alloc);
    for source in sources {
        let program = program_of(alloc, &source)?;
        programs.push(program)?;
        let LoadedSource { module, .. } = source;
        modules.push(module)?;
    }
    Ok(Loaded {
        programs: Programs { modules: programs },
        modules,
    })
}

/// The code of a source, under its name and path.
fn program_of(alloc: Global, source: &LoadedSource) -> Result<Program, NoMemory>
    ensures well_formed { IsWellFormed (plain_source source.now).body }
    ensures code { IfOk result (λ p. HasUnits (plain_source source.now).body p.code) }
    ensures name { IfOk result (λ p. chars (string_bytes p.name) ≡ source.now.name) }
    ensures path { IfOk result (λ p. string_bytes p.path ≡ encode_utf8_all source.now.path) }
    ensures same { IfOk result (λ p.
        loaded_module p source.now.module ≡ plain_source source.now) }
{
    let code = compile(alloc, &source.module, &source.scopes)?;
    let name = String::from_str(alloc, source.name.as_str())?;
    let path = String::from_str(alloc, source.path.as_str())?;
    Ok(Program { name, path, code })
}
