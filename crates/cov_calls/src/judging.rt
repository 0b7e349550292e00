//! Whether enough was covered.
ghost use Rattle.std.specs.Prelude.{◌≡◌, ◌*◌, nat_le, IfOk, All, map};
ghost use Rattle.cov_analysis.specs.Counts.{IsCounted, numbers_of, total_of};
ghost use Rattle.cov_step.specs.Phases.{judged_by};
ghost use Rattle.cov_calls.specs.Views.{answered_view};

use crate::answered::{Answered, Ended};
use cov_analysis::{Analysis, Numbers, total};
use std::alloc::{AllocError, Global};

/// All work is done, or less than this percent was covered. The exact fraction is compared.
pub fn judged(alloc: Global, least: u32, files: &[Analysis]) -> Result<Answered, AllocError>
    requires { All (λ file. IsCounted (numbers_of file)) files.now }
    ensures { IfOk result (λ a.
        answered_view a ≡ judged_by least (total_of (map numbers_of files.now))) }
{
    judged_by(alloc, least, total(files))
}

fn judged_by(alloc: Global, least: u32, numbers: Numbers) -> Result<Answered, AllocError>
    requires { IsCounted numbers }
    ensures { IfOk result (λ a. answered_view a ≡ judged_by least numbers) }
{
    let covered = numbers.covered();
    let all = numbers.all();
    if is_enough(least, covered, all) {
        return Ok(Answered::done(alloc));
    }
    Ok(Answered {
        ended: Ended::Under(covered, all),
        ending: format!(in alloc; "{least}")?,
    })
}

fn is_enough(least: u32, covered: u64, all: u64) -> bool
    ensures { result ≡ nat_le (least * all) (100 * covered) }
{
    u128::from(least) * u128::from(all) <= 100 * u128::from(covered)
}
