//! Lines that are matched.
ghost use Rattle.std.specs.Prelude.{◌≡◌, ℕ, List, true, false, nat_lt};
ghost use Rattle.std.specs.List.Sorted.{IsPartitionPoint};
ghost use Rattle.cov_exclude.specs.Touched.{touches, IsRising};

use std::marker::Model;

/// The numbers of the lines that are matched, counted from 1, in order.
#[derive(Drop)]
pub(crate) struct Matched {
    lines: Vec<usize>,
}

impl Model for Matched {
    ghost Value = { List ℕ };

    ghost view = { λ matched. matched.lines.items };

    ghost invariant = { λ matched. IsRising matched.lines.items };
}

impl Matched {
    pub(crate) fn new(lines: Vec<usize>) -> Matched
        requires { IsRising lines.items }
        ensures { result ≡ lines.items }
    {
        Matched { lines }
    }

    /// Whether one of them lies between two lines. Takes time of the logarithm of their number.
    pub(crate) fn touches(&self, first: u32, last: u32) -> bool
        ensures { result ≡ touches self.now first last }
    {
        let lines = self.lines.as_slice();
        let at = place_of(lines, first as usize);
        if at < lines.len() {
            return lines[at] <= last as usize;
        }
        false
    }
}

/// How many of the lines are below a line.
fn place_of(lines: &[usize], first: usize) -> usize
    requires { IsRising lines.now }
    ensures { IsPartitionPoint (λ l. nat_lt l first ≡ true) (λ l.
        nat_lt l first ≡ false) lines.now result }
{
    lines.partition_point(|line| *line < first)
}
