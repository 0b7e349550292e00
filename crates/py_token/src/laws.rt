// Laws of spelling.

ghost use Rattle.py_token.specs.Spelling.{OneSpelling, OneFault, NeverBoth};
ghost use Rattle.py_token.specs.Longest.{NoneLonger};

/// A text spells at most one list of tokens; one that is stuck is stuck in one place and spells
/// nothing. No word, number, operator or comment is cut shorter than it could be. It does nothing
/// when it runs.
pub fn one_spelling()
    ensures one_list { OneSpelling }
    ensures one_fault { OneFault }
    ensures never_both { NeverBoth }
    ensures longest { NoneLonger }
{}
