// Where a program's input comes from.
ghost use Rattle.std.specs.Prelude.{◌≡◌, ℕ, ◌<◌, ◌≤◌, List, [], ◌++◌, length, take, drop, IfOk, OnErr};
ghost use Rattle.cov_outside.specs.Counts.{greatest, Rose};

use thiserror::Error;

/// The outside failed, and the object has counted it.
#[derive(Clone, Copy, Debug, PartialEq, Eq, Error)]
#[error("the outside failed")]
pub struct Failed;

/// A source of bytes.
pub trait Source {
    // Whether the source tells the bytes that are left in it.
    ghost tells: { Type 0 };

    // The bytes that are left, where they are told.
    ghost left: { Self → List ℕ };

    // How often a read has failed.
    ghost faults: { Self → ℕ };

    /// Moves some of the bytes that are left into the front of `buf` and answers how many. It
    /// answers 0 for a `buf` that isn't empty only at the end of the input.
    fn read(&mut self, buf: &mut [u8]) -> Result<usize, Failed>
        ensures fits { IfOk result (λ n. n ≤ length buf.old) }
        ensures moved { tells → IfOk result (λ n. left self.old ≡ take n buf.new ++ left self.new) }
        ensures rest { IfOk result (λ n. drop n buf.new ≡ drop n buf.old) }
        ensures end { tells → 0 < length buf.old → IfOk result (λ n. n ≡ 0 → left self.new ≡ []) }

        ensures kept { tells → OnErr result (left self.new ≡ left self.old) }
        ensures same_buf { OnErr result (buf.new ≡ buf.old) }

        ensures count { faults self.old ≤ faults self.new }
        ensures failed { OnErr result (Rose (faults self.old) (faults self.new)) };

    // The count stands still at the greatest number of 64 bits.
    ghost bounded: { (source : Self) → faults source ≤ greatest };
}
