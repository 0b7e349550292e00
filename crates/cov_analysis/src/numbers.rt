//! The numbers of a report.
ghost use Rattle.std.specs.Prelude.{◌≡◌, ◌≢◌, ◌≤◌, ◌<◌, ◌^◌, ◌*◌, ◌⊎◌, ◌↔◌, IsTrue};
ghost use Rattle.cov_analysis.specs.Counts.{IsCounted, covered_of, all_of};
ghost use Rattle.cov_analysis.specs.Percent.{IsNearest, IsPercent, RoundsUp};
ghost use Rattle.cov_analysis.specs.Percentage.{percent};

/// What a report counts, of a file or of all.
#[derive(Clone, Copy, Debug, PartialEq, Eq)]
pub struct Numbers {
    pub statements: u64,
    pub missing: u64,
    pub excluded: u64,
    pub branches: u64,
    pub missing_branches: u64,
    /// Missing branches whose source line was executed.
    pub partial: u64,
}

impl Numbers {
    /// Statements and branches that were covered.
    pub fn covered(&self) -> u64
        requires { IsCounted self.now }
        ensures { result ≡ covered_of self.now }
    {
        self.statements - self.missing + (self.branches - self.missing_branches)
    }

    /// Statements and branches.
    pub fn all(&self) -> u64
        requires { IsCounted self.now }
        ensures { result ≡ all_of self.now }
    {
        self.statements + self.branches
    }

    /// The percentage that was covered, to the nearest whole number and to the even one of two. It
    /// is 0 only where nothing was covered, and 100 only where all was.
    pub fn percent(&self) -> u32
        requires { IsCounted self.now }
        ensures nearest { IsPercent (covered_of self.now) (all_of self.now) result }
        ensures is { result ≡ percent self.now }
    {
        percent_of(self.covered(), self.all())
    }
}

fn percent_of(covered: u64, all: u64) -> u32
    requires part { covered ≤ all }
    requires small { all < 2 ^ 57 }
    ensures { IsPercent covered all result }
{
    if all == 0 {
        return 100;
    }
    let rounded = nearest(100 * covered, all);
    if rounded == 0 {
        return at_least(covered);
    }
    if rounded == 100 {
        return at_most(covered, all);
    }
    rounded as u32
}

/// 0 where nothing was covered, and else 1.
fn at_least(covered: u64) -> u32
    ensures { (covered ≡ 0) × (result ≡ 0) ⊎ (covered ≢ 0) × (result ≡ 1) }
{
    if covered == 0 { 0 } else { 1 }
}

/// 100 where all was covered, and else 99.
fn at_most(covered: u64, all: u64) -> u32
    ensures { (covered ≡ all) × (result ≡ 100) ⊎ (covered ≢ all) × (result ≡ 99) }
{
    if covered == all { 100 } else { 99 }
}

/// The nearest whole number to a fraction, and the even one of two.
fn nearest(part: u64, whole: u64) -> u64
    requires some { 0 < whole }
    requires small { whole < 2 ^ 57 }
    requires part { part ≤ 100 * whole }
    ensures nearest { IsNearest part whole result }
    ensures percent { result ≤ 100 }
{
    let number = part / whole;
    if rounds_up(number, part % whole, whole) {
        return number + 1;
    }
    number
}

/// Whether what is left of a fraction is more than a half, or a half after an odd number.
fn rounds_up(number: u64, rest: u64, whole: u64) -> bool
    requires less { rest < whole }
    requires small { whole < 2 ^ 57 }
    ensures { IsTrue result ↔ RoundsUp number rest whole }
{
    if 2 * rest == whole {
        return number % 2 == 1;
    }
    2 * rest > whole
}
