// The list in which methods and built-in functions get their values, kept from call to call.
ghost use Rattle.std.specs.Prelude.{◌≡◌, [], IsTrue, IsFalse};

use py_value::Value;
use std::alloc::Global;

/// A list for the values of a call: the spare one, if they are only lent. What it holds doesn't
/// matter.
pub fn list_for_call(alloc: Global, are_lent: bool, spare: &mut Vec<Value>) -> Vec<Value>
    ensures lends { IsTrue are_lent → result ≡ spare.old }
    ensures keeps { IsFalse are_lent → spare.new ≡ spare.old }
{
    if are_lent {
        std::mem::replace(spare, Vec::new(alloc))
    } else {
        Vec::new(alloc)
    }
}

/// A list whose values are let go, for the next call.
pub fn emptied(values: Vec<Value>) -> Vec<Value>
    ensures { result.items ≡ [] }
{
    let mut spare = values;
    spare.clear();
    spare
}
