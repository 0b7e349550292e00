//! Counts the mutants of a module, and makes each from its number: one changed copy of the tree.
#![tactic(auto)]

mod kinds;
mod marks;
mod simple;
mod statements;
mod suites;

ghost use Rattle.std.specs.Prelude.{◌≡◌, IfOk, length, min, option_map, slice_get};
ghost use Rattle.py_syntax.specs.View.{plain_module, plain_stmts};
ghost use Rattle.py_changes.specs.Mutants.{module_mutants};
ghost use Rattle.cov_mutants.specs.MutantView.{mutant_of};
ghost use Rattle.cov_places.specs.PlaceView.{token_of};

use crate::marks::Marks;
use cov_mutants_expr::Search;
use cov_places::{Place, place_count};
use py_syntax::{Module, Stmt};
use py_text::NoMemory;
use std::alloc::Global;

/// A module with one token changed: the line of the mark at which the token stands, the token as
/// it was written, the one in its place, and the changed module.
#[derive(Drop)]
pub struct Mutant {
    pub line: u32,
    pub old: String,
    pub new: String,
    pub module: Module,
}

/// How many mutants a module has. A count stays at the greatest number of 64 bits.
pub fn mutant_count(module: &Module) -> u64
    ensures { result ≡ min (length (module_mutants (plain_module «module».now))) u64.MAX }
{
    place_count(module)
}

/// The mutant of a module with this number, counted from 0 in the order of the changed tokens.
pub fn mutant_at(alloc: Global, module: &Module, number: u64) -> Result<Option<Mutant>, NoMemory>
    ensures { IfOk result (λ m. option_map mutant_of m
        ≡ slice_get (module_mutants (plain_module «module».now)) number) }
{
    let mut at = Marks {
        search: Search::Left(number),
        line: 0,
    };
    let body = statements::statements(alloc, &module.body, &mut at)?;
    match at.search {
        Search::Left(_) => {
            drop(body);
            Ok(None)
        }
        Search::Found(place) => Ok(Some(of_place(alloc, at.line, place, body)?)),
    }
}

/// The mutant that changes a place at the mark of a line.
fn of_place(alloc: Global, line: u32, place: Place, body: Vec<Stmt>) -> Result<Mutant, NoMemory>
    ensures { IfOk result (λ m. mutant_of m
        ≡ ((line, token_of place), plain_stmts body.items)) }
{
    let old = place.old(alloc)?;
    let new = place.new(alloc)?;
    Ok(Mutant {
        line,
        old,
        new,
        module: Module { body },
    })
}
