// What a run tells.
use py_value::ExcKind;

/// A piece of code: a unit of a module. Unit 0 is the module's body, and unit k its k-th `def`.
#[derive(Clone, Copy, PartialEq, Eq)]
pub struct CodeId {
    pub module: u32,
    pub unit: u32,
}

/// One thing that happens in the innermost frame.
#[derive(Clone, Copy, PartialEq, Eq)]
pub enum Event {
    /// A frame begins for this code.
    Call(CodeId),
    /// A line begins, counted from 1.
    Line(u32),
    /// An exception of this kind is thrown.
    Throw(ExcKind),
    /// The frame ends, normally or by an exception.
    Return,
}
