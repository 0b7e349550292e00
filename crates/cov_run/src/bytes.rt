//! Takes bytes for a text.

ghost use Rattle.std.specs.Prelude.{◌≡◌, ◌≤◌, length, MatchResult};
ghost use Rattle.std.specs.Str.{IsUtf8};
ghost use Rattle.cov_run.specs.Loading.{most_bytes};
ghost use Rattle.cov_run.specs.Reading.{line_ends, fault_line};

/// How many line ends stand in the bytes.
fn line_ends(bytes: &[u8]) -> u32
    requires { length bytes.now ≤ most_bytes }
    ensures count { result ≡ line_ends bytes.now }
    ensures few { result ≤ length bytes.now }
{
    let mut count: u32 = 0;
    let mut rest = bytes;
    'ends: while let Some((byte, after)) = rest.split_first() {
        if *byte == b'\n' {
            count += 1;
        }
        rest = after;
    }
    count
}

/// The text of bytes that are UTF-8; else the line, counted from 1, of the first byte that fits no
/// character.
pub(crate) fn text_of(bytes: &[u8]) -> Result<&str, u32>
    requires { length bytes.now ≤ most_bytes }
    ensures { MatchResult result (λ text. (text.now ≡ bytes.now) × IsUtf8 bytes.now) (λ line.
        ¬ (IsUtf8 bytes.now) × (line ≡ fault_line bytes.now)) }
{
    match str::from_utf8(bytes) {
        Ok(text) => Ok(text),
        Err(error) => Err(line_ends(&bytes[..error.valid_up_to()]) + 1),
    }
}
