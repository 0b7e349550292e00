// Where a statement stands.

ghost use Rattle.std.specs.Prelude.{◌≡◌};
ghost use Rattle.py_scope.specs.Faults.{module_place, function_place, in_loop, in_clause};
ghost use Rattle.py_scope.specs.Faults.{in_finally};

/// Where a statement stands.
#[derive(Clone, Copy, Drop)]
pub(crate) struct Place {
    /// In a function.
    pub function: bool,
    /// In a loop of its function.
    pub looped: bool,
    /// In an `except` clause of its function, and in no `finally` suite inside that clause.
    pub handled: bool,
}

impl Place {
    pub(crate) fn of_module() -> Place
        ensures { result ≡ module_place }
    {
        Place {
            function: false,
            looped: false,
            handled: false,
        }
    }

    pub(crate) fn of_function() -> Place
        ensures { result ≡ function_place }
    {
        Place {
            function: true,
            looped: false,
            handled: false,
        }
    }

    pub(crate) fn in_loop(self) -> Place
        ensures { result ≡ in_loop self }
    {
        Place {
            looped: true,
            ..self
        }
    }

    pub(crate) fn in_clause(self) -> Place
        ensures { result ≡ in_clause self }
    {
        Place {
            handled: true,
            ..self
        }
    }

    pub(crate) fn in_finally(self) -> Place
        ensures { result ≡ in_finally self }
    {
        Place {
            handled: false,
            ..self
        }
    }
}
