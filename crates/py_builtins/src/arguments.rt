// The arguments of a call.

ghost use Rattle.std.specs.Prelude.{◌≡◌, MatchOption, Some, None};
ghost use Rattle.py_value.specs.View.{plain, plains};
ghost use Rattle.py_builtins.specs.Arguments.{are_none, only, pair};

use py_value::Value;

/// Whether there is no argument.
pub(crate) fn are_none(args: &[Value]) -> bool
    ensures { result ≡ are_none (plains args.now) }
{
    args.is_empty()
}

/// The argument, where there is just one.
pub(crate) fn only(args: &[Value]) -> Option<&Value>
    ensures { MatchOption result (only (plains args.now) ≡ None) (λ x.
        only (plains args.now) ≡ Some (plain x.now)) }
{
    if args.len() == 1 {
        Some(&args[0])
    } else {
        None
    }
}

/// The two arguments, where there are just two.
pub(crate) fn pair(args: &[Value]) -> Option<(&Value, &Value)>
    ensures { MatchOption result (pair (plains args.now) ≡ None) (λ p.
        pair (plains args.now) ≡ Some (plain p.0.now, plain p.1.now)) }
{
    if args.len() == 2 {
        Some((&args[0], &args[1]))
    } else {
        None
    }
}
