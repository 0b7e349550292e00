//! Whether a module that marked nothing is the same in the new version.
ghost use Rattle.std.specs.Prelude.{◌≡◌, ◌||◌, ◌&&◌};
ghost use Rattle.py_syntax.specs.View.{plain_stmts, plain_module};
ghost use Rattle.py_changes.specs.Changed.{fits_body};

use crate::marks::have_marks;
use crate::silence::{are_silent, same_docstrings};
use py_docstrings::without_docstring;
use py_syntax::{Module, Stmt};

/// Whether the old version of a module marks a line, or the new one is the same. Else all lines of
/// both lists of modules change, which no comparison of these two tells.
pub fn fits(before: &Module, after: &Module) -> bool
    ensures { result ≡ fits_body (plain_module before.now) (plain_module after.now) }
{
    body_fits(&before.body, &after.body)
}

pub(crate) fn body_fits(a: &[Stmt], b: &[Stmt]) -> bool
    ensures { result ≡ fits_body (plain_stmts a.now) (plain_stmts b.now) }
{
    let x = without_docstring(a);
    let y = without_docstring(b);
    marks_or(have_marks(x), same_docstrings(a, b), are_silent(x, y))
}

/// Whether the old body marks a line, or both are led by the same docstring and silent alike.
fn marks_or(marks: bool, led: bool, silent: bool) -> bool
    ensures { result ≡ (marks || (led && silent)) }
{
    marks || (led && silent)
}
