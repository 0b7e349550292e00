// The names of tests.
ghost use Rattle.std.specs.Prelude.{◌≡◌, ◌<◌, List, [], length, map, IfOk, OnOk};
ghost use Rattle.py_code.specs.Loaded.{modules_of};
ghost use Rattle.py_code.specs.Units.{plain_unit};
ghost use Rattle.py_compile.specs.ProgramRuns.{AreFaithful};
ghost use Rattle.py_meaning.specs.Modules.{LoadedModule};
ghost use Rattle.py_syntax.specs.Names.{add_name};
ghost use Rattle.cov_suite.specs.Tests.{is_test, test_names, tests_of, tests_of_code};

use indexmap::IndexSet;
use py_code::{Programs, Unit};
use py_compile::units_are_faithful;
use py_text::{NoMemory, Text};
use std::alloc::Global;
use std::marker::Model;

/// Names, each once, in the order in which they came.
#[derive(Drop)]
struct NameSet {
    all: IndexSet<Text>,
}

impl Model for NameSet {
    ghost use Rattle.std.specs.Prelude.{List, ℕ};

    ghost Value = { List (List ℕ) };

    ghost view = { λ s. s.all.keys };
}

impl NameSet {
    fn new(alloc: Global) -> NameSet
        ensures { result ≡ [] }
    {
        NameSet {
            all: IndexSet::new(alloc),
        }
    }

    fn insert(&mut self, name: &Text) -> Result<(), NoMemory>
        ensures { OnOk result (self.new ≡ add_name self.old name.now) }
    {
        self.all.insert(name.copy()?)?;
        Ok(())
    }

    fn names(&self, alloc: Global) -> Result<Vec<Text>, NoMemory>
        ensures { IfOk result (λ names. names.items ≡ self.now) }
    {
        let mut names = Vec::new(alloc);
        let all = self.all.as_slice();
        for name in all {
            names.push(name.copy()?)?;
        }
        Ok(names)
    }
}

/// Whether the name is that of a test.
fn is_test(name: &Text) -> bool
    ensures { result ≡ is_test name.now }
{
    name.as_str().starts_with("test")
}

/// The tests among some `def`s.
fn tests_among(alloc: Global, defs: &[Unit]) -> Result<Vec<Text>, NoMemory>
    ensures { IfOk result (λ names. names.items
        ≡ test_names (map (λ u. u.name) (map plain_unit defs.now))) }
{
    let mut found = NameSet::new(alloc);
    for unit in defs {
        if is_test(&unit.name) {
            found.insert(&unit.name)?;
        }
    }
    found.names(alloc)
}

/// The names of the tests of the script, in the order of the text.
pub fn tests_of_script(alloc: Global, programs: &Programs) -> Result<Vec<Text>, NoMemory>
    requires { 0 < length (modules_of programs.now) }
    ensures code { IfOk result (λ names. names.items ≡ tests_of_code (modules_of programs.now)) }
    // Of all trees of which the programs are faithful code:
    ensures meant { IfOk result (λ names. (ms : List LoadedModule)
        → AreFaithful (modules_of programs.now) ms → names.items ≡ tests_of ms) }
{
    units_are_faithful();
    script_tests(alloc, programs)
}

fn script_tests(alloc: Global, programs: &Programs) -> Result<Vec<Text>, NoMemory>
    requires { 0 < length (modules_of programs.now) }
    ensures { IfOk result (λ names. names.items ≡ tests_of_code (modules_of programs.now)) }
{
    let script = &programs.modules[0];
    match script.code.units() {
        [] => Ok(Vec::new(alloc)),
        [_, defs @ ..] => tests_among(alloc, defs),
    }
}
