// Whether a module is well formed.

ghost use Rattle.std.specs.Prelude.{◌≡◌, ◌⊎◌, [], IfOk, IfErr, IfSome, IfNone};
ghost use Rattle.py_syntax.specs.View.{plain_module};
ghost use Rattle.py_scope.specs.declared.error.ScopeError.TheVariants.{NoMemory};
ghost use Rattle.py_scope.specs.Answer.{ComesBefore, IsFirst};
ghost use Rattle.py_scope.specs.Faults.{IsWellFormed, all_findings, faults_of, functions_of};

use crate::error::ScopeError;
use crate::faults::statements;
use crate::place::Place;
use crate::report::Report;
use crate::scopes::Scopes;
use py_syntax::Module;
use py_text::NoMemory;
use std::alloc::Global;

/// The names of the module's functions, where it is well formed, and else its first fault: that of
/// the earliest line, and on one line that of the smallest number. Nothing is left behind where
/// memory doesn't suffice.
pub fn check(alloc: Global, module: &Module) -> Result<Scopes, ScopeError>
    ensures well_formed { IfOk result (λ s. IsWellFormed (plain_module «module».now)) }
    ensures names { IfOk result (λ s. s ≡ functions_of (plain_module «module».now)) }
    ensures fault { IfErr result (λ e. (e ≡ NoMemory)
        ⊎ IsFirst (faults_of (plain_module «module».now)) e) }
{
    let report = report_of(alloc, module)?;
    match first(&report.faults) {
        Some(fault) => Err(fault),
        None => Ok(Scopes {
            functions: report.functions,
        }),
    }
}

/// All that is found in a module.
fn report_of(alloc: Global, module: &Module) -> Result<Report, NoMemory>
    ensures { IfOk result (λ r. r ≡ all_findings (plain_module «module».now)) }
{
    let mut report = Report::new(alloc);
    report.declarations(alloc, &module.body)?;
    statements(alloc, &mut report, Place::of_module(), &module.body)?;
    Ok(report)
}

/// The fault that comes first.
fn first(faults: &[ScopeError]) -> Option<ScopeError>
    ensures none { IfNone result (faults.now ≡ []) }
    ensures some { IfSome result (λ e. IsFirst faults.now e) }
{
    let mut best = *faults.first()?;
    for fault in faults {
        best = earlier(best, *fault);
    }
    Some(best)
}

/// The one of two faults that comes first.
fn earlier(a: ScopeError, b: ScopeError) -> ScopeError
    ensures { ((result ≡ a) × (ComesBefore b a → ⊥)) ⊎ ((result ≡ b) × ComesBefore b a) }
{
    if b.comes_before(&a) { b } else { a }
}
