// Places in sequences that numbers name.

ghost use Rattle.std.specs.Prelude.{◌≡◌};
ghost use Rattle.py_value.specs.Sequences.{place_among, bound_among, first_bound, last_bound};

/// The place among so many items, from the end where the index is negative.
pub fn place_among(count: usize, at: i64) -> Option<usize>
    ensures { result ≡ place_among count at }
{
    let size = at.unsigned_abs() as usize;
    if at >= 0 {
        if size < count { Some(size) } else { None }
    } else if size <= count {
        Some(count - size)
    } else {
        None
    }
}

/// A bound of a slice, kept within the length.
fn bound_among(count: usize, at: i64) -> usize
    ensures { result ≡ bound_among count at }
{
    let size = at.unsigned_abs() as usize;
    if at >= 0 {
        size.min(count)
    } else {
        count.saturating_sub(size)
    }
}

/// Where a slice begins.
pub fn first_bound(count: usize, from: Option<i64>) -> usize
    ensures { result ≡ first_bound count from }
{
    match from {
        None => 0,
        Some(at) => bound_among(count, at),
    }
}

/// Where a slice ends.
pub fn last_bound(count: usize, to: Option<i64>) -> usize
    ensures { result ≡ last_bound count to }
{
    match to {
        None => count,
        Some(at) => bound_among(count, at),
    }
}
