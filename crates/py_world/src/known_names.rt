// Names that are predefined: they are found where a module sets none of that name.
ghost use Rattle.std.specs.Prelude.{◌≡◌, ◌++◌, map, Some, None, MatchOption};
ghost use Rattle.py_text.specs.Comparison.{is_same_text};
ghost use Rattle.py_value.specs.Plain.{builtin_value, kind_value};
ghost use Rattle.py_builtins.specs.Displays.{builtin_name, kind_name};
ghost use Rattle.py_value.specs.View.{plain};
ghost use Rattle.py_builtins.specs.Predefined.{builtin_pair, kind_pair, predefined};
ghost use Rattle.py_builtins.specs.World.{Names, value_of};
ghost use Rattle.py_world.specs.KnownNames.{IsKnown, known_value};

use crate::texts::is_text;
use py_builtins::{BUILTINS, KINDS, builtin_name, kind_name};
use py_value::{Builtin, ExcKind, Text, Value};

/// A built-in function or a kind of exceptions.
#[derive(Clone, Copy)]
pub enum Known {
    Function(Builtin),
    Kind(ExcKind),
}

impl Known {
    pub fn value(self) -> Value
        ensures { plain result ≡ known_value self }
    {
        match self {
            Known::Function(which) => Value::Builtin(which),
            Known::Kind(kind) => Value::Kind(kind),
        }
    }
}

/// The value of what is predefined under this name.
pub fn predefined(name: &Text) -> Option<Value>
    ensures { MatchOption result (value_of name.now predefined ≡ None) (λ v.
        value_of name.now predefined ≡ Some (plain v)) }
{
    match find_known(name) {
        None => None,
        Some(known) => Some(known.value()),
    }
}

/// What is predefined under this name.
pub fn find_known(name: &Text) -> Option<Known>
    ensures { IsKnown name.now result }
{
    match builtin_among(name, &BUILTINS) {
        Some(which) => Some(Known::Function(which)),
        None => match kind_among(name, &KINDS) {
            Some(kind) => Some(Known::Kind(kind)),
            None => None,
        },
    }
}

fn builtin_among(name: &Text, all: &[Builtin]) -> Option<Builtin>
    ensures { (ns : Names)
        → MatchOption result (value_of name.now (map builtin_pair all.now ++ ns)
        ≡ value_of name.now ns)
        (λ f. value_of name.now (map builtin_pair all.now ++ ns) ≡ Some (builtin_value f)) }
{
    for which in all {
        if is_builtin(name, *which) {
            return Some(*which);
        }
    }
    None
}

fn kind_among(name: &Text, all: &[ExcKind]) -> Option<ExcKind>
    ensures { MatchOption result (value_of name.now (map kind_pair all.now) ≡ None)
        (λ k. value_of name.now (map kind_pair all.now) ≡ Some (kind_value k)) }
{
    for kind in all {
        if is_kind(name, *kind) {
            return Some(*kind);
        }
    }
    None
}

/// Whether a built-in function has this name.
fn is_builtin(name: &Text, which: Builtin) -> bool
    ensures { result ≡ is_same_text name.now (builtin_name which) }
{
    is_text(name, builtin_name(which))
}

/// Whether a kind of exceptions has this name.
fn is_kind(name: &Text, kind: ExcKind) -> bool
    ensures { result ≡ is_same_text name.now (kind_name kind) }
{
    is_text(name, kind_name(kind))
}
