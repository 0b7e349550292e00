// The hashes of texts.

ghost use Rattle.std.specs.Prelude.{◌≡◌};
ghost use Rattle.std.specs.Str.{chars};
ghost use Rattle.py_text.specs.Hashes.{mixed, mixed_all};

/// The hash of a text without characters.
pub(crate) const OF_NO_CHARACTERS: usize = 7;

/// A hash with each character of a text in it.
pub(crate) fn mixed_all(start: usize, s: &str) -> usize
    ensures { result ≡ mixed_all start (chars s.now) }
{
    let mut hash = start;
    for c in s.chars() {
        hash = mixed(hash, c as usize);
    }
    hash
}

/// A hash with one more number in it.
pub fn mixed(hash: usize, n: usize) -> usize
    ensures { result ≡ mixed hash n }
{
    hash.wrapping_mul(31).wrapping_add(n)
}
