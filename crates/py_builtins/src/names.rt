// The kinds of exceptions and the built-in functions, and their names.

ghost use Rattle.std.specs.Prelude.{◌≡◌};
ghost use Rattle.py_builtins.specs.Displays.{kind_name, builtin_name};

use py_value::{Builtin, ExcKind};

/// The built-in functions whose names a module finds where it sets none of its own: all but `exit`,
/// which is a name of `sys`.
pub const BUILTINS: [Builtin; 7] = [
    Builtin::Print,
    Builtin::Len,
    Builtin::Range,
    Builtin::Str,
    Builtin::Repr,
    Builtin::Int,
    Builtin::Input,
];

/// The kinds of exceptions.
pub const KINDS: [ExcKind; 21] = [
    ExcKind::BaseException,
    ExcKind::SystemExit,
    ExcKind::Exception,
    ExcKind::ArithmeticError,
    ExcKind::ZeroDivisionError,
    ExcKind::OverflowError,
    ExcKind::AssertionError,
    ExcKind::AttributeError,
    ExcKind::EOFError,
    ExcKind::ImportError,
    ExcKind::ModuleNotFoundError,
    ExcKind::LookupError,
    ExcKind::IndexError,
    ExcKind::KeyError,
    ExcKind::MemoryError,
    ExcKind::NameError,
    ExcKind::UnboundLocalError,
    ExcKind::RuntimeError,
    ExcKind::RecursionError,
    ExcKind::TypeError,
    ExcKind::ValueError,
];

/// The name of a kind of exceptions, as a program writes it.
pub fn kind_name(kind: ExcKind) -> &'static str
    ensures { result.now ≡ kind_name kind }
{
    match kind {
        ExcKind::BaseException => "BaseException",
        ExcKind::SystemExit => "SystemExit",
        ExcKind::Exception => "Exception",
        ExcKind::ArithmeticError => "ArithmeticError",
        ExcKind::ZeroDivisionError => "ZeroDivisionError",
        ExcKind::OverflowError => "OverflowError",
        ExcKind::AssertionError => "AssertionError",
        ExcKind::AttributeError => "AttributeError",
        ExcKind::EOFError => "EOFError",
        ExcKind::ImportError => "ImportError",
        ExcKind::ModuleNotFoundError => "ModuleNotFoundError",
        ExcKind::LookupError => "LookupError",
        ExcKind::IndexError => "IndexError",
        ExcKind::KeyError => "KeyError",
        ExcKind::MemoryError => "MemoryError",
        ExcKind::NameError => "NameError",
        ExcKind::UnboundLocalError => "UnboundLocalError",
        ExcKind::RuntimeError => "RuntimeError",
        ExcKind::RecursionError => "RecursionError",
        ExcKind::TypeError => "TypeError",
        ExcKind::ValueError => "ValueError",
    }
}

/// The name of a built-in function; that of `sys.exit` is `exit`.
pub fn builtin_name(which: Builtin) -> &'static str
    ensures { result.now ≡ builtin_name which }
{
    match which {
        Builtin::Print => "print",
        Builtin::Len => "len",
        Builtin::Range => "range",
        Builtin::Str => "str",
        Builtin::Repr => "repr",
        Builtin::Int => "int",
        Builtin::Input => "input",
        Builtin::Exit => "exit",
    }
}
