//! The places of a module that mutants change: how many there are, and the token of each.
#![tactic(auto)]

mod expr_counts;
mod place;
mod stmt_counts;

ghost use Rattle.std.specs.Prelude.{◌≡◌, length, min};
ghost use Rattle.py_syntax.specs.View.{plain_module};
ghost use Rattle.py_changes.specs.Mutants.{module_mutants};

pub use place::{Place, other_comparison, other_number, other_operator};
use py_syntax::Module;

/// How many places of a module a mutant changes. A count stays at the greatest number of 64 bits.
pub fn place_count(module: &Module) -> u64
    ensures { result ≡ min (length (module_mutants (plain_module «module».now))) u64.MAX }
{
    stmt_counts::statements(0, &module.body)
}
