// The kinds of exceptions, and the tree that they form.

ghost use Rattle.std.specs.Prelude.{◌≡◌, ◌↔◌, IsTrue};
ghost use Rattle.py_value.specs.ExcKind.{parent_of, is_same_kind, is_or_under};

/// A kind of exceptions. The kinds form a tree, with `BaseException` on top.
#[derive(Clone, Copy, PartialEq, Eq)]
pub enum ExcKind {
    BaseException,
    SystemExit,
    Exception,
    ArithmeticError,
    ZeroDivisionError,
    OverflowError,
    AssertionError,
    AttributeError,
    EOFError,
    ImportError,
    ModuleNotFoundError,
    LookupError,
    IndexError,
    KeyError,
    MemoryError,
    NameError,
    UnboundLocalError,
    RuntimeError,
    RecursionError,
    TypeError,
    ValueError,
}

impl ExcKind {
    /// The kind directly above this one in the tree.
    pub fn parent(self) -> Option<ExcKind>
        ensures { result ≡ parent_of self }
    {
        match self {
            ExcKind::BaseException => None,
            ExcKind::SystemExit | ExcKind::Exception => Some(ExcKind::BaseException),
            ExcKind::ZeroDivisionError | ExcKind::OverflowError => Some(ExcKind::ArithmeticError),
            ExcKind::ModuleNotFoundError => Some(ExcKind::ImportError),
            ExcKind::IndexError | ExcKind::KeyError => Some(ExcKind::LookupError),
            ExcKind::UnboundLocalError => Some(ExcKind::NameError),
            ExcKind::RecursionError => Some(ExcKind::RuntimeError),
            _ => Some(ExcKind::Exception),
        }
    }

    pub fn is_same(self, other: ExcKind) -> bool
        ensures number { result ≡ is_same_kind self other }
        ensures same { IsTrue result ↔ (self ≡ other) }
    {
        self == other
    }

    /// Whether this kind is the other or stands under it in the tree: what `except other` catches.
    pub fn is_or_under(self, other: ExcKind) -> bool
        ensures { result ≡ is_or_under self other }
    {
        if self.is_same(other) {
            return true;
        }
        match self.parent() {
            None => false,
            Some(kind) => kind.is_or_under(other),
        }
    }
}
