//! A module that was loaded.

ghost use Rattle.std.specs.Prelude.{◌≡◌};
ghost use Rattle.py_scope.specs.Faults.{IsWellFormed, functions_of};
ghost use Rattle.py_syntax.specs.View.{plain_module};

use py_scope::Scopes;
use py_syntax::Module;
use py_text::Text;

/// A module: its name, the name of its file, its tree, and the names of its functions.
#[derive(Drop)]
pub struct LoadedSource {
    pub name: Text,
    pub path: Text,
    pub module: Module,
    pub scopes: Scopes,
    ghost well_formed: { IsWellFormed (plain_module «module») },
    ghost names_told: { scopes ≡ functions_of (plain_module «module») },
}
