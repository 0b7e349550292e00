// The names of functions.

ghost use Rattle.std.specs.Prelude.{◌≡◌, List, slice_get, length, option_copied, IfOk};
ghost use Rattle.py_syntax.specs.Names.{is_among, declared_names, is_local as is_local_in};
ghost use Rattle.py_syntax.specs.Names.{local_names};
ghost use Rattle.py_syntax.specs.Tree.{Text, Stmts};
ghost use Rattle.py_scope.specs.Faults.{names_of};
ghost use Rattle.py_scope.specs.Scopes.{is_local, is_global, own_names};

use crate::names::NameSet;
use py_text::{NoMemory, Text};
use std::alloc::Global;
use std::marker::Model;

/// The names of a function, seen as the list of those that it assigns and the list of those that it
/// declares `global`, each once, in the order of the text. Its parameters are assigned first.
#[derive(Drop)]
pub struct FunctionNames {
    pub(crate) assigned: NameSet,
    pub(crate) globals: NameSet,
}

impl Model for FunctionNames {
    ghost use Rattle.py_scope.specs.Scopes.{Names};

    ghost Value = { Names };

    ghost view = { λ f. record { assigned = f.assigned; globals = f.globals } };
}

impl FunctionNames {
    /// Whether the name is local in the function.
    pub fn is_local(&self, name: &Text) -> bool
        ensures names { result ≡ is_local self.now name.now }
        // In a function with these parameters and this body.
        ensures function { (params : List Text) (body : Stmts) → self.now ≡ names_of params body
            → result ≡ is_local_in params body name.now }
    {
        self.assigned.contains(name) && !self.globals.contains(name)
    }

    /// Whether the function declares the name `global`.
    pub fn is_global(&self, name: &Text) -> bool
        ensures names { result ≡ is_global self.now name.now }
        ensures function { (params : List Text) (body : Stmts) → self.now ≡ names_of params body
            → result ≡ is_among (declared_names body) name.now }
    {
        self.globals.contains(name)
    }

    /// The local names of the function, in the order in which it first assigns them.
    pub fn locals(&self, alloc: Global) -> Result<Vec<Text>, NoMemory>
        ensures names { IfOk result (λ v. v.items ≡ own_names self.now) }
        // In a function with these parameters and this body.
        ensures function { (params : List Text) (body : Stmts) → self.now ≡ names_of params body
            → IfOk result (λ v. v.items ≡ local_names params body) }
    {
        self.assigned.without(alloc, &self.globals)
    }
}

/// The names of the functions of a module in the order of their `def`s, seen as their list.
#[derive(Drop)]
pub struct Scopes {
    pub(crate) functions: Vec<FunctionNames>,
}

impl Model for Scopes {
    ghost use Rattle.std.specs.Prelude.{List};
    ghost use Rattle.py_scope.specs.Scopes.{Names};

    ghost Value = { List Names };

    ghost view = { λ s. s.functions.items };
}

impl Scopes {
    /// How many functions there are.
    pub fn len(&self) -> usize
        ensures { result ≡ length self.now }
    {
        self.functions.len()
    }

    /// The names of the function whose `def` has so many before it.
    pub fn function(&self, at: usize) -> Option<&FunctionNames>
        ensures { option_copied result ≡ slice_get self.now at }
    {
        self.functions.get(at)
    }
}
