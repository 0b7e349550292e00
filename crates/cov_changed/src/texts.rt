//! Texts that are the same.
ghost use Rattle.std.specs.Prelude.{◌≡◌, ◌&&◌};
ghost use Rattle.py_text.specs.Comparison.{is_same_text};
ghost use Rattle.py_changes.specs.Same.{same_texts};

use py_text::Text;

/// Whether both hold: a call, since each `&&` of a long test is one more way through it to prove.
pub fn hold(one: bool, other: bool) -> bool
    ensures { result ≡ (one && other) }
{
    one && other
}

pub(crate) fn is_same(a: &Text, b: &Text) -> bool
    ensures { result ≡ is_same_text a.now b.now }
{
    a.is_same(b)
}

/// Whether two lists of texts are the same.
pub(crate) fn are_same(xs: &[Text], ys: &[Text]) -> bool
    ensures { result ≡ same_texts xs.now ys.now }
{
    if xs.len() != ys.len() {
        return false;
    }
    let mut all = true;
    for i in 0..xs.len() {
        all = hold(all, is_same(&xs[i], &ys[i]));
    }
    all
}
