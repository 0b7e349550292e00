// Trials: the tests that passed run on the code of a mutant.
ghost use Rattle.std.specs.Prelude.{◌≡◌, ◌<◌, ◌≤◌, length, IfOk, OnOk};
ghost use Rattle.cov_mutate.specs.Code.{units_in, with_units};
ghost use Rattle.cov_mutate.specs.Trials.{tried_of};
ghost use Rattle.cov_suite.specs.Passing.{all_pass_in_code};
ghost use Rattle.py_code.specs.Loaded.{modules_of, most_numbered};

use cov_suite::all_pass;
use py_code::{Code, Programs};
use py_text::{NoMemory, Text};
use std::alloc::Global;
use std::mem;

/// What each mutant is tried on: the code of all modules, the tests that passed, and the budget of
/// the import and of each test.
#[derive(Drop)]
pub(crate) struct Trial {
    pub programs: Programs,
    pub names: Vec<Text>,
    pub budget: u64,
}

/// Gives a module other code, and answers what it had.
fn swap_code(programs: &mut Programs, m: usize, code: Code) -> Code
    requires { m < length (modules_of programs.old) }
    ensures had { result ≡ units_in (modules_of programs.old) m }
    ensures has { modules_of programs.new ≡ with_units (modules_of programs.old) m code }
{
    mem::replace(&mut programs.modules[m].code, code)
}

impl Trial {
    /// Whether the import finishes and all tests pass with other code of a module. Its own is put
    /// back.
    pub(crate) fn passes(&mut self, alloc: Global, m: usize, code: Code) -> Result<bool, NoMemory>
        requires there { m < length (tried_of self.old).code }
        requires few { length (tried_of self.old).code ≤ most_numbered }
        ensures passed { IfOk result (λ b. b ≡ all_pass_in_code
            (with_units (tried_of self.old).code m code) (tried_of self.old).budget
            (tried_of self.old).names) }
        ensures kept { OnOk result (tried_of self.new ≡ tried_of self.old) }
    {
        let own = swap_code(&mut self.programs, m, code);
        let passed = all_pass(alloc, &self.programs, self.budget, &self.names)?;
        let tried = swap_code(&mut self.programs, m, own);
        drop(tried);
        Ok(passed)
    }
}
