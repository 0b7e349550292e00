// The search for a mutant by its number, over one token at a time.

ghost use Rattle.std.specs.Prelude.{◌≡◌, true, false, [], ◌∷◌};
ghost use Rattle.py_changes.specs.Mutants.{operator_change, augmented_change, comparison_change};
ghost use Rattle.py_changes.specs.Mutants.{number_change, truth_change};
ghost use Rattle.cov_mutants_expr.specs.Search.{Copied, changed, past, found};
ghost use Rattle.cov_places.specs.PlaceView.{token_of};
ghost use Rattle.cov_mutants_expr.specs.SearchView.{seen};

use cov_places::{Place, other_comparison, other_number, other_operator};
use py_operator::{BinOp, CmpOp};
use py_syntax::Comparison;

/// So many mutants are still to be passed over, or the place of the one that was reached.
#[derive(Clone, Copy)]
pub enum Search {
    Left(u64),
    Found(Place),
}

impl Search {
    /// A search that has ended: it changes nothing more.
    pub(crate) fn ended() -> Search
        ensures { seen result ≡ found (token_of (Place.Truth false)) }
    {
        Search::Found(Place::Truth(false))
    }

    /// Comes to the one mutant of a place. Answers whether it is the one that is reached.
    fn reaches(&mut self, place: Place) -> bool
        ensures state { seen self.new ≡ past (seen self.old) ((token_of place, true) ∷ []) }
        ensures reached { result ≡ changed (seen self.old) false ((token_of place, true) ∷ []) }
    {
        match *self {
            Search::Found(_) => false,
            Search::Left(0) => {
                *self = Search::Found(place);
                true
            }
            Search::Left(n) => {
                *self = Search::Left(n - 1);
                false
            }
        }
    }

    pub(crate) fn operator(&mut self, op: BinOp) -> BinOp
        ensures { Copied operator_change (seen self.old) (seen self.new) op result }
    {
        if self.reaches(Place::Operator(op)) {
            other_operator(op)
        } else {
            op
        }
    }

    /// The operator of an augmented assignment, or the one in its place.
    pub fn augmented(&mut self, op: BinOp) -> BinOp
        ensures { Copied augmented_change (seen self.old) (seen self.new) op result }
    {
        if self.reaches(Place::Augmented(op)) {
            other_operator(op)
        } else {
            op
        }
    }

    pub(crate) fn comparison(&mut self, op: Comparison) -> Comparison
        ensures { Copied comparison_change (seen self.old) (seen self.new) op result }
    {
        match op {
            Comparison::Op(of) => self.compared(of),
            Comparison::Is => Comparison::Is,
            Comparison::IsNot => Comparison::IsNot,
        }
    }

    fn compared(&mut self, op: CmpOp) -> Comparison
        ensures { Copied comparison_change (seen self.old) (seen self.new)
            (Comparison.Op op) result }
    {
        match other_comparison(op) {
            Some(other) if self.reaches(Place::Comparison(op, other)) => Comparison::Op(other),
            _ => Comparison::Op(op),
        }
    }

    pub(crate) fn number(&mut self, n: i64) -> i64
        ensures { Copied number_change (seen self.old) (seen self.new) n result }
    {
        if self.reaches(Place::Number(n)) {
            other_number(n)
        } else {
            n
        }
    }

    pub(crate) fn truth(&mut self, b: bool) -> bool
        ensures { Copied truth_change (seen self.old) (seen self.new) b result }
    {
        if self.reaches(Place::Truth(b)) { !b } else { b }
    }
}
