// Texts as keys of maps and sets: by their characters.

ghost use Rattle.std.specs.Prelude.{◌≡◌, Some, refl, bytes_eq, encode_utf8_all};
ghost use Rattle.std.proofs.Common.{ap};
ghost use Rattle.std.specs.Ordering.{nat_cmp};
ghost use Rattle.std.specs.Hash as fed;
ghost use Rattle.std.specs.Cmp.{partial_equiv_from_equiv};
ghost use Rattle.std.specs.Cmp.Lexicographic.{slice_cmp, bytes_decides, nat_list_eq_equiv, nat_list_cmp_total, texts_ties, texts_po};

use crate::text::Text;
use std::cmp::Ordering;
use std::hash::{Hash, Hasher};

impl PartialEq for Text {
    ghost eq = { λ a b. bytes_eq a b };

    ghost laws = { partial_equiv_from_equiv nat_list_eq_equiv };

    fn eq(&self, other: &Text) -> bool {
        self.is_same(other)
    }
}

impl Eq for Text {
    ghost laws = { nat_list_eq_equiv };
}

impl PartialOrd for Text {
    ghost partial_cmp = { λ a b. Some (slice_cmp nat_cmp a b) };

    ghost laws = { texts_po };

    fn partial_cmp(&self, other: &Text) -> Option<Ordering> {
        Some(self.cmp(other))
    }
}

impl Ord for Text {
    ghost cmp = { λ a b. slice_cmp nat_cmp a b };

    ghost total = { nat_list_cmp_total };

    ghost matches_partial_cmp = { λ a b. refl };

    ghost matches_eq = { λ a b. texts_ties a b };

    fn cmp(&self, other: &Text) -> Ordering {
        self.order(other)
    }
}

impl Hash for Text {
    ghost hash_input = { λ t. fed.str (encode_utf8_all t) };

    ghost respects_eq = { λ a b e. ap (λ t. fed.str (encode_utf8_all t)) ((bytes_decides a b).0 e) };

    fn hash<H: Hasher>(&self, state: &mut H) {
        self.as_str().hash(state);
    }
}
