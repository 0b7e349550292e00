// The calls of an object in memory that fail.
ghost use Rattle.std.specs.Prelude.{◌≡◌, ◌≤◌, ◌↔◌, IsTrue, IsFalse};
ghost use Rattle.cov_outside.specs.Counts.{greatest, Rose};

/// Which calls of an object fail, by their numbers from 0, and how many have failed.
#[derive(Drop)]
pub struct Failing {
    numbers: Vec<u64>,
    calls: u64,
    faults: u64,
    ghost bounded: { faults ≤ greatest },
}

impl Failing {
    ghost use Rattle.cov_outside.specs.Calls.{FailsNext, after_call};
    ghost use Rattle.cov_outside.specs.Memory.{calls_of, faults_of};

    pub fn new(numbers: Vec<u64>) -> Failing
        ensures calls { calls_of result ≡ record { failing = numbers.items; count = 0 } }
        ensures faults { faults_of result ≡ 0 }
    {
        Failing {
            numbers,
            calls: 0,
            faults: 0,
        }
    }

    /// Counts a call, and says whether it fails.
    pub fn fails(&mut self) -> bool
        ensures answer { IsTrue result ↔ FailsNext (calls_of self.old) }
        ensures calls { calls_of self.new ≡ after_call (calls_of self.old) }

        ensures count { faults_of self.old ≤ faults_of self.new }
        ensures failed { IsTrue result → Rose (faults_of self.old) (faults_of self.new) }
        ensures stays { IsFalse result → faults_of self.new ≡ faults_of self.old }
    {
        let fails = self.numbers.contains(&self.calls);
        self.calls = self.calls.saturating_add(1);
        if fails {
            self.faults = self.faults.saturating_add(1);
        }
        fails
    }
}
