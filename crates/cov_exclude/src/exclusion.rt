//! The excluded lines of a module, and its no-branch lines.
ghost use Rattle.std.specs.Prelude.{◌≡◌, IfOk};
ghost use Rattle.py_syntax.specs.Marks.{in_order};
ghost use Rattle.py_syntax.specs.View.{plain_module};
ghost use Rattle.cov_exclude.specs.Excluded.{excluded_lines};
ghost use Rattle.cov_exclude.specs.NoBranch.{no_branch_lines};
ghost use Rattle.cov_exclude.specs.Sources.{excluded_in, no_branch_in};

use crate::matched::Matched;
use crate::patterns::Patterns;
use crate::walk;
use crate::walk::Rule;
use py_syntax::Module;
use py_text::NoMemory;
use std::alloc::Global;

/// The statement lines that are excluded, counted from 1: each once, in order. The module is the
/// tree of the source.
pub fn excluded(
    alloc: Global,
    patterns: &Patterns,
    module: &Module,
    source: &str,
) -> Result<Vec<u32>, NoMemory>
    ensures { IfOk result (λ ls.
        ls.items ≡ excluded_in patterns.now (plain_module «module».now) source.now) }
{
    let matched = patterns.matched_lines(alloc, source)?;
    excluded_by(alloc, module, &matched)
}

/// The statement lines that needn't take all of their branches, counted from 1: each once, in
/// order. The module is the tree of the source.
pub fn no_branch(
    alloc: Global,
    patterns: &Patterns,
    module: &Module,
    source: &str,
) -> Result<Vec<u32>, NoMemory>
    ensures { IfOk result (λ ls.
        ls.items ≡ no_branch_in patterns.now (plain_module «module».now) source.now) }
{
    let matched = patterns.matched_lines(alloc, source)?;
    no_branch_by(alloc, module, &matched)
}

fn excluded_by(alloc: Global, module: &Module, matched: &Matched) -> Result<Vec<u32>, NoMemory>
    ensures { IfOk result (λ lines.
        lines.items ≡ excluded_lines matched.now (plain_module «module».now)) }
{
    let mut lines = Vec::new(alloc);
    let rule = Rule {
        matched,
        spreads: true,
    };
    walk::statements(&mut lines, rule, false, true, &module.body)?;
    Ok(ordered(lines))
}

fn no_branch_by(alloc: Global, module: &Module, matched: &Matched) -> Result<Vec<u32>, NoMemory>
    ensures { IfOk result (λ lines.
        lines.items ≡ no_branch_lines matched.now (plain_module «module».now)) }
{
    let mut lines = Vec::new(alloc);
    let rule = Rule {
        matched,
        spreads: false,
    };
    walk::statements(&mut lines, rule, false, true, &module.body)?;
    Ok(ordered(lines))
}

/// Lines in order, each once.
fn ordered(lines: Vec<u32>) -> Vec<u32>
    ensures { result.items ≡ in_order lines.items }
{
    let mut lines = lines;
    lines.sort_unstable();
    lines.dedup();
    lines
}
