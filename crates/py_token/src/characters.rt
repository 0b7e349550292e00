// The front of a list of characters.

ghost use Rattle.std.specs.Prelude.{◌≡◌, ◌≤◌, ◌∷◌, [], length, take, drop, MatchOption};
ghost use Rattle.py_token.specs.Source.{begins};
ghost use Rattle.py_token.specs.Strings.{doubled};

/// The first character and the others.
pub fn split_first(chars: &[char]) -> Option<(char, &[char])>
    ensures { MatchOption result (chars.now ≡ []) (λ p. chars.now ≡ p.0 ∷ p.1.now) }
{
    if chars.is_empty() {
        return None;
    }
    Some((chars[0], &chars[1..]))
}

/// The characters after the first `n`.
pub fn after(chars: &[char], n: usize) -> &[char]
    requires { n ≤ length chars.now }
    ensures { result.now ≡ drop n chars.now }
{
    &chars[n..]
}

/// The first `n` characters.
pub fn front(chars: &[char], n: usize) -> &[char]
    requires { n ≤ length chars.now }
    ensures { result.now ≡ take n chars.now }
{
    &chars[..n]
}

pub fn begins(c: char, chars: &[char]) -> bool
    ensures { result ≡ begins c chars.now }
{
    match split_first(chars) {
        Some((d, _)) => d == c,
        None => false,
    }
}

/// Whether a quote stands there twice.
pub fn doubled(quote: char, chars: &[char]) -> bool
    ensures { result ≡ doubled quote chars.now }
{
    match split_first(chars) {
        Some((c, others)) => c == quote && begins(quote, others),
        None => false,
    }
}
