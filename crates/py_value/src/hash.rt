// The hashes of keys.

ghost use Rattle.std.specs.Prelude.{◌≡◌};
ghost use Rattle.py_value.specs.View.{plain, plains};
ghost use Rattle.py_value.specs.Plain.{packed};
ghost use Rattle.py_value.specs.Hashes.{hash_of, hash_of_items};

use crate::value::Value;
use py_text::hash::mixed;

/// The hash of a key, which texts and tuples keep. Equal keys have equal hashes.
pub fn hash_of(key: &Value) -> usize
    ensures { result ≡ hash_of (plain key.now) }
{
    match key {
        Value::Int(n) => n.unsigned_abs() as usize,
        Value::Str(text) => text.kept_hash(),
        Value::Tuple(items) => items.hash(),
        Value::None
        | Value::Bool(_)
        | Value::List(_)
        | Value::Dict(_)
        | Value::Func(_, _)
        | Value::Module(_)
        | Value::Kind(_)
        | Value::Exc(_, _)
        | Value::Builtin(_) => 0,
    }
}

/// The hash of a tuple of these items, in one step for each.
pub fn hash_of_items(items: &[Value]) -> usize
    ensures { result ≡ hash_of_items 1 (packed (plains items.now)) }
{
    let mut hash: usize = 1;
    for item in items {
        hash = mixed(hash, hash_of(item));
    }
    hash
}
