// What becomes of tests.
ghost use Rattle.std.specs.Prelude.{◌≡◌};

use cov_data::Data;
use py_value::{ExcKind, Text};
use std::alloc::AllocError;

/// How a test ended: its call gave a value, raised an exception with this text, or was cut.
#[derive(Drop)]
pub enum TestEnd {
    Passed,
    Failed(ExcKind, Text),
    Cut,
}

/// A test: its name, how it ended, the bytes that it wrote, the steps that it took, and the lines
/// that it or the import reached, by path and then by number, each once.
#[derive(Drop)]
pub struct TestResult {
    pub name: String,
    pub end: TestEnd,
    pub output: Vec<u8>,
    pub steps: u64,
    pub reached: Vec<(String, u32)>,
}

/// The tests in the order of the text, the lines that the import reached, and the data of import
/// and tests.
#[derive(Drop)]
pub struct SuiteRun {
    pub tests: Vec<TestResult>,
    pub imported: Vec<(String, u32)>,
    pub rows: Data,
}

/// Why there are no results: the import raised, exited or was cut, or there was no memory.
#[derive(Debug, PartialEq, Drop)]
pub enum SuiteError {
    NotImported,
    NoMemory,
}

impl From<AllocError> for SuiteError {
    ghost use Rattle.cov_suite.specs.declared.results.SuiteError.TheVariants.{NoMemory};

    ghost from_gives = { λ _ e. e ≡ NoMemory };

    fn from(_error: AllocError) -> SuiteError {
        SuiteError::NoMemory
    }
}
