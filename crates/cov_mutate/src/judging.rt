// Each mutant is judged.
ghost use Rattle.std.specs.Prelude.{◌≡◌, ◌<◌, ◌≤◌, ◌++◌, length, map, IfOk, OnOk};
ghost use Rattle.cov_mutants.specs.MutantView.{mutant_of};
ghost use Rattle.cov_mutate.specs.Code.{code_of, judge, judged_all, sources};
ghost use Rattle.cov_mutate.specs.Meant.{end_of, view_of};
ghost use Rattle.cov_mutate.specs.Trials.{tried_of};
ghost use Rattle.py_changes.specs.Mutants.{module_mutants};
ghost use Rattle.py_code.specs.Loaded.{modules_of, most_numbered};
ghost use Rattle.py_scope.specs.Faults.{IsWellFormed, functions_of};
ghost use Rattle.py_syntax.specs.View.{plain_module};

use crate::copies::scopes_of;
use crate::trial::Trial;
use crate::{Judged, MutantEnd};
use cov_data::Data;
use cov_mutants::{Mutant, mutant_at};
use py_code::Programs;
use py_compile_module::compile;
use py_mutants_laws::mutants_are_well_formed;
use py_scope::Scopes;
use py_syntax::Module;
use py_text::NoMemory;
use std::alloc::Global;

/// What the tests notice of a mutant of the module with a number, of which these lines were
/// reached. The names of its functions are those of the module.
fn end_of(
    alloc: Global,
    m: usize,
    mutant: &Mutant,
    scopes: &Scopes,
    lines: &[u32],
    trial: &mut Trial,
) -> Result<MutantEnd, NoMemory>
    requires there { m < length (tried_of trial.old).code }
    requires few { length (tried_of trial.old).code ≤ most_numbered }
    requires well_formed { IsWellFormed (plain_module mutant.now.module) }
    requires names { scopes.now ≡ functions_of (plain_module mutant.now.module) }
    ensures verdict { IfOk result (λ e. end_of e
        ≡ (judge (tried_of trial.old) lines.now m (mutant_of mutant.now)).verdict) }
    ensures kept { OnOk result (tried_of trial.new ≡ tried_of trial.old) }
{
    let reached = lines.contains(&mutant.line);
    if !reached {
        return Ok(MutantEnd::Unreached);
    }
    let code = compile(alloc, &mutant.module, scopes)?;
    let passed = trial.passes(alloc, m, code)?;
    if passed {
        Ok(MutantEnd::Survived)
    } else {
        Ok(MutantEnd::Killed)
    }
}

/// Judges a mutant.
fn judge(
    alloc: Global,
    m: usize,
    mutant: Mutant,
    scopes: &Scopes,
    lines: &[u32],
    trial: &mut Trial,
) -> Result<Judged, NoMemory>
    requires there { m < length (tried_of trial.old).code }
    requires few { length (tried_of trial.old).code ≤ most_numbered }
    requires well_formed { IsWellFormed (plain_module mutant.module) }
    requires names { scopes.now ≡ functions_of (plain_module mutant.module) }
    ensures view { IfOk result (λ j. view_of j
        ≡ judge (tried_of trial.old) lines.now m (mutant_of mutant)) }
    ensures kept { OnOk result (tried_of trial.new ≡ tried_of trial.old) }
{
    let end = end_of(alloc, m, &mutant, scopes, lines, trial)?;
    let Mutant { line, old, new, .. } = mutant;
    Ok(Judged {
        module: m as u32,
        line,
        old,
        new,
        end,
    })
}

/// Judges each mutant of the module with a number, of which these lines were reached.
fn judge_module(
    alloc: Global,
    m: usize,
    module: &Module,
    lines: &[u32],
    trial: &mut Trial,
    judged: &mut Vec<Judged>,
) -> Result<(), NoMemory>
    requires there { m < length (tried_of trial.old).code }
    requires few { length (tried_of trial.old).code ≤ most_numbered }
    ensures judged { OnOk result (map view_of judged.new.items ≡ map view_of judged.old.items
        ++ map (judge (tried_of trial.old) lines.now m)
        (module_mutants (plain_module «module».now))) }
    ensures kept { OnOk result (tried_of trial.new ≡ tried_of trial.old) }
{
    mutants_are_well_formed();
    let scopes = scopes_of(alloc, module)?;
    let start = judged.len();
    'mutants: loop {
        let number = (judged.len() - start) as u64;
        match mutant_at(alloc, module, number)? {
            None => return Ok(()),
            Some(mutant) => {
                let found = judge(alloc, m, mutant, &scopes, lines, trial)?;
                judged.push(found)?;
            }
        }
    }
}

/// Judges each mutant of the modules but the script, by the data of the unchanged programs.
pub(crate) fn judge_all(
    alloc: Global,
    modules: &[Module],
    programs: &Programs,
    rows: &Data,
    trial: &mut Trial,
) -> Result<Vec<Judged>, NoMemory>
    requires code { (tried_of trial.old).code
        ≡ map code_of (sources programs.now.modules.items modules.now) }
    requires few { length (modules_of programs.now) ≤ most_numbered }
    ensures { IfOk result (λ js. map view_of js.items ≡ judged_all (tried_of trial.old)
        rows.now (sources programs.now.modules.items modules.now)) }
{
    let mut judged = Vec::new(alloc);
    let count = programs.modules.len().min(modules.len());
    for m in 1..count {
        let lines = rows.lines(programs.modules[m].path.as_str())?;
        judge_module(alloc, m, &modules[m], &lines, trial, &mut judged)?;
    }
    Ok(judged)
}
