// The keys of dicts.

ghost use Rattle.std.specs.Prelude.{◌≡◌};
ghost use Rattle.py_value.specs.View.{plain, plains};
ghost use Rattle.py_value.specs.Plain.{packed};
ghost use Rattle.py_value.specs.Keys.{is_key, are_keys, is_same_key, are_same_keys};

use crate::value::Value;

/// Whether a value may be a key: a text, a whole number, `None` or a tuple of such.
pub fn is_key(value: &Value) -> bool
    ensures { result ≡ is_key (plain value.now) }
{
    match value {
        Value::None | Value::Int(_) | Value::Str(_) => true,
        Value::Tuple(items) => items.are_keys(),
        Value::Bool(_)
        | Value::List(_)
        | Value::Dict(_)
        | Value::Func(_, _)
        | Value::Module(_)
        | Value::Kind(_)
        | Value::Exc(_, _)
        | Value::Builtin(_) => false,
    }
}

/// Whether each of these may be a key, in one step for each.
pub(crate) fn are_keys(values: &[Value]) -> bool
    ensures { result ≡ are_keys (packed (plains values.now)) }
{
    for value in values {
        if !is_key(value) {
            return false;
        }
    }
    true
}

/// Whether two keys are the same. Values that are no keys are not.
#[cycle(is_same_key)]
pub fn is_same_key(left: &Value, right: &Value) -> bool
    ensures { result ≡ is_same_key (plain left.now) (plain right.now) }
{
    match left {
        Value::None => matches!(right, Value::None),
        Value::Int(m) => match right {
            Value::Int(n) => *m == *n,
            _ => false,
        },
        Value::Str(s) => match right {
            Value::Str(t) => s.is_same(t),
            _ => false,
        },
        Value::Tuple(items) => match right {
            Value::Tuple(others) => {
                if items.hash() == others.hash() {
                    are_same_keys(items.as_slice(), others.as_slice())
                } else {
                    false
                }
            }
            _ => false,
        },
        Value::Bool(_)
        | Value::List(_)
        | Value::Dict(_)
        | Value::Func(_, _)
        | Value::Module(_)
        | Value::Kind(_)
        | Value::Exc(_, _)
        | Value::Builtin(_) => false,
    }
}

#[cycle(is_same_key)]
fn are_same_keys(left: &[Value], right: &[Value]) -> bool
    ensures { result ≡ are_same_keys (packed (plains left.now)) (packed (plains right.now)) }
{
    if left.len() != right.len() {
        return false;
    }
    for i in 0..left.len() {
        if !is_same_key(&left[i], &right[i]) {
            return false;
        }
    }
    true
}
