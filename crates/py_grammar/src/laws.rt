// Laws of the grammar of expressions. The functions do nothing when they run.

ghost use Rattle.py_grammar.specs.Machine.{any, one, target};
ghost use Rattle.py_grammar.specs.Refusal.{OneTree};
ghost use Rattle.py_grammar.specs.ExprTrees.{OneOf};
ghost use Rattle.py_grammar.specs.Ends.{IsExactEverywhere};

/// A list of tokens with its end spells one expression at most.
pub fn one_tree()
    ensures one_expression { OneTree }
{}

/// A list of tokens is that of at most one `exprs`.
pub fn one_exprs()
    ensures { OneOf any }
{}

/// A list of tokens is that of at most one `expr`.
pub fn one_expr()
    ensures { OneOf one }
{}

/// A list of tokens is that of at most one target of a `for`.
pub fn one_target()
    ensures { OneOf target }
{}

/// Where the reading of an expression ends under a limit, and how, is what all its trees say.
pub fn exact_ends()
    ensures { IsExactEverywhere }
{}
