// Laws of patterns.

ghost use Rattle.py_parse_pattern.specs.Trees.{OnePattern};

/// A list of tokens is that of at most one pattern. It does nothing when it runs.
pub fn one_pattern()
    ensures { OnePattern }
{}
