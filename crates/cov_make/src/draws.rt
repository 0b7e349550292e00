//! The numbers that the blocks are drawn by.
ghost use Rattle.std.specs.Prelude.{◌≡◌};
ghost use Rattle.cov_make.specs.Source.{number_after, drawn};

/// Of Knuth's generator MMIX.
const MULTIPLIER: u64 = 6_364_136_223_846_793_005;

const INCREMENT: u64 = 1_442_695_040_888_963_407;

pub(crate) fn next_number(number: u64) -> u64
    ensures { result ≡ number_after number }
{
    number.wrapping_mul(MULTIPLIER).wrapping_add(INCREMENT)
}

/// The high bits, of which there are 31. The low ones repeat early.
pub(crate) fn drawn(number: u64) -> u64
    ensures { result ≡ drawn number }
{
    number >> 33
}
