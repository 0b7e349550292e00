// New stores.
ghost use Rattle.py_machine.specs.Fitting.{NewStoreFits};

/// What `Store::new` gives fits its programs. The function does nothing, and stands for the law
/// that its contract states.
pub fn new_store_fits()
    ensures { NewStoreFits }
{}
