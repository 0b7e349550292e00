// Why an operation raises.

ghost use Rattle.std.specs.Prelude.{◌≡◌};
ghost use Rattle.py_value.specs.Causes.{kind_of, text_of};

use crate::exception::ExcKind;

/// A cause of an exception whose kind and text are always the same.
#[derive(Clone, Copy)]
pub enum Cause {
    UnsupportedOperand,
    NotCallable,
    WrongArgumentCount,
    UnhashableKey,
    NotIterable,
    NotSubscriptable,
    BadArgument,
    NotException,
    NotExceptionKind,
    WrongValueCount,
    InvalidLiteral,
    EmptySeparator,
    ZeroStep,
    InputNotUtf8,
    ListIndex,
    TupleIndex,
    StringIndex,
    ListAssignmentIndex,
    PopIndex,
    DivisionByZero,
    IntegerTooLarge,
    DictChangedSize,
    TooDeep,
    NoInput,
    TooManyItems,
}

impl Cause {
    pub fn kind(self) -> ExcKind
        ensures { result ≡ kind_of self }
    {
        match self {
            Cause::UnsupportedOperand
            | Cause::NotCallable
            | Cause::WrongArgumentCount
            | Cause::UnhashableKey
            | Cause::NotIterable
            | Cause::NotSubscriptable
            | Cause::BadArgument
            | Cause::NotException
            | Cause::NotExceptionKind => ExcKind::TypeError,
            Cause::WrongValueCount
            | Cause::InvalidLiteral
            | Cause::EmptySeparator
            | Cause::ZeroStep
            | Cause::InputNotUtf8 => ExcKind::ValueError,
            Cause::ListIndex
            | Cause::TupleIndex
            | Cause::StringIndex
            | Cause::ListAssignmentIndex
            | Cause::PopIndex => ExcKind::IndexError,
            Cause::DivisionByZero => ExcKind::ZeroDivisionError,
            Cause::IntegerTooLarge => ExcKind::OverflowError,
            Cause::DictChangedSize => ExcKind::RuntimeError,
            Cause::TooDeep => ExcKind::RecursionError,
            Cause::NoInput => ExcKind::EOFError,
            Cause::TooManyItems => ExcKind::MemoryError,
        }
    }

    /// The text of the exception, empty for `MemoryError`.
    pub fn text(self) -> &'static str
        ensures { result.now ≡ text_of self }
    {
        match self {
            Cause::UnsupportedOperand => "unsupported operand",
            Cause::NotCallable => "not callable",
            Cause::WrongArgumentCount => "wrong number of arguments",
            Cause::UnhashableKey => "unhashable key",
            Cause::NotIterable => "not iterable",
            Cause::NotSubscriptable => "not subscriptable",
            Cause::BadArgument => "bad argument",
            Cause::NotException => "not an exception",
            Cause::NotExceptionKind => "not an exception kind",
            Cause::WrongValueCount => "wrong number of values",
            Cause::InvalidLiteral => "invalid literal for int",
            Cause::EmptySeparator => "empty separator",
            Cause::ZeroStep => "range step is zero",
            Cause::InputNotUtf8 => "input is not UTF-8",
            Cause::ListIndex => "list index out of range",
            Cause::TupleIndex => "tuple index out of range",
            Cause::StringIndex => "string index out of range",
            Cause::ListAssignmentIndex => "list assignment index out of range",
            Cause::PopIndex => "pop index out of range",
            Cause::DivisionByZero => "division by zero",
            Cause::IntegerTooLarge => "integer too large",
            Cause::DictChangedSize => "dictionary changed size during iteration",
            Cause::TooDeep => "maximum recursion depth exceeded",
            Cause::NoInput => "no input",
            Cause::TooManyItems => "",
        }
    }
}
