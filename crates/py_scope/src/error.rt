// Why a module isn't well formed.

ghost use Rattle.std.specs.Prelude.{◌≡◌, ◌↔◌, IsTrue};
ghost use Rattle.py_scope.specs.declared.error.ScopeError.TheVariants.{NoMemory};
ghost use Rattle.py_scope.specs.Answer.{line_of, number_of, ComesBefore};

use std::alloc::{AllocError, AllocFailed};
use thiserror::Error;

/// Why a module isn't well formed, with the first line of the statement, or of the header, that is
/// to blame. Lines count from 1.
#[derive(Clone, Copy, Debug, PartialEq, Eq, Drop, Error)]
pub enum ScopeError {
    /// A `break` or `continue` stands in no loop of its function.
    #[error("line {0}: a jump out of no loop")]
    BreakOutside(u32),
    /// A `return` stands in no function, or a bare `raise` where no exception is handled.
    #[error("line {0}: nothing to return from, or to raise again")]
    ReturnOutside(u32),
    /// A name is declared `global` after it was used, or is a parameter.
    #[error("line {0}: a name is declared global after it was used")]
    GlobalAfterUse(u32),
    /// A `def` stands in a function.
    #[error("line {0}: a function in a function")]
    NestedFunction(u32),
    /// A bare `except`, an irrefutable case or an irrefutable alternative isn't the last of its
    /// list.
    #[error("line {0}: what follows can't be reached")]
    EarlyIrrefutable(u32),
    /// Two parameters have one name, a pattern binds a name twice, or an alternative binds a name.
    #[error("line {0}: a name is bound twice, or by an alternative")]
    TwiceNamed(u32),
    #[error("out of memory")]
    NoMemory,
}

impl From<AllocError> for ScopeError {
    ghost from_gives = { λ _ e. e ≡ NoMemory };

    fn from(_error: AllocError) -> ScopeError {
        ScopeError::NoMemory
    }
}

impl<T: Drop> From<AllocFailed<T>> for ScopeError {
    ghost from_gives = { λ _ e. e ≡ NoMemory };

    fn from(_error: AllocFailed<T>) -> ScopeError {
        ScopeError::NoMemory
    }
}

impl ScopeError {
    /// The line that is to blame, or 0 where memory didn't suffice.
    pub fn line(&self) -> u32
        ensures { result ≡ line_of self.now }
    {
        match self {
            ScopeError::BreakOutside(line) => *line,
            ScopeError::ReturnOutside(line) => *line,
            ScopeError::GlobalAfterUse(line) => *line,
            ScopeError::NestedFunction(line) => *line,
            ScopeError::EarlyIrrefutable(line) => *line,
            ScopeError::TwiceNamed(line) => *line,
            ScopeError::NoMemory => 0,
        }
    }

    /// The number of the variant.
    pub fn number(&self) -> u32
        ensures { result ≡ number_of self.now }
    {
        match self {
            ScopeError::BreakOutside(_) => 1,
            ScopeError::ReturnOutside(_) => 2,
            ScopeError::GlobalAfterUse(_) => 3,
            ScopeError::NestedFunction(_) => 4,
            ScopeError::EarlyIrrefutable(_) => 5,
            ScopeError::TwiceNamed(_) => 6,
            ScopeError::NoMemory => 70,
        }
    }

    /// Whether this fault is answered before the other one.
    pub(crate) fn comes_before(&self, other: &ScopeError) -> bool
        ensures { IsTrue result ↔ ComesBefore self.now other.now }
    {
        if self.line() == other.line() {
            self.number() < other.number()
        } else {
            self.line() < other.line()
        }
    }
}
