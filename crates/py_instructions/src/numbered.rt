// What has a number in a list.
ghost use Rattle.std.specs.Prelude.{◌≡◌, None, Some, slice_get, MatchOption};

/// What has this number in a list, counted from 0, if anything has.
pub fn numbered<T>(list: &[T], n: u32) -> Option<&T>
    ensures { MatchOption result (slice_get list.now n ≡ None) (λ x.
        slice_get list.now n ≡ Some x.now) }
{
    list.get(n as usize)
}
