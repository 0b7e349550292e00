// The methods of values.

ghost use Rattle.std.specs.Prelude.{◌≡◌, Err, OnErr};
ghost use Rattle.py_value.specs.View.{plain, plains};
ghost use Rattle.py_value.specs.HeapView.{plain_heap};
ghost use Rattle.py_builtins.specs.Answering.{Answers, RaiseKeeps};
ghost use Rattle.py_builtins.specs.Calls.{AnswersAnywhere};
ghost use Rattle.py_builtins.specs.Methods.{method_name, absent_text, no_attribute, method_of, is_list_method, is_dict_method, is_text_method, has_method};

use crate::dict_methods::{get_value, list_keys, pop_value};
use crate::list_methods::{append, pop_item};
use crate::text_methods::{join_list, split, test_start};
use py_value::{Argument, ExcKind, Heap, Method, NoMemory, Raised, Text, Value};
use std::alloc::Global;

/// A method of a value, called with these arguments. A value without the method raises
/// `AttributeError`.
pub fn call_method(
    alloc: Global,
    which: Method,
    on: &Value,
    args: &[Value],
    heap: &mut Heap,
) -> Result<Result<Value, Raised>, NoMemory>
    ensures answer { Answers result heap.new
        (method_of which (plain on.now) (plains args.now) (plain_heap heap.old)) }
    ensures raised { RaiseKeeps result heap.old heap.new }
    ensures err { OnErr result (plain_heap heap.new ≡ plain_heap heap.old) }
{
    match on {
        Value::List(list) => match which {
            Method::Append => append(alloc, *list, args, heap),
            Method::Pop => pop_item(alloc, *list, args, heap),
            Method::Get | Method::Keys | Method::StartsWith | Method::Join | Method::Split => {
                lack(alloc, which)
            }
        },
        Value::Dict(dict) => match which {
            Method::Pop => pop_value(alloc, *dict, args, heap),
            Method::Get => get_value(alloc, *dict, args, heap),
            Method::Keys => list_keys(alloc, *dict, args, heap),
            Method::Append | Method::StartsWith | Method::Join | Method::Split => {
                lack(alloc, which)
            }
        },
        Value::Str(text) => match which {
            Method::StartsWith => test_start(alloc, text, args, heap),
            Method::Join => join_list(alloc, text, args, heap),
            Method::Split => split(alloc, text, args, heap),
            Method::Append | Method::Pop | Method::Get | Method::Keys => lack(alloc, which),
        },
        Value::None
        | Value::Bool(_)
        | Value::Int(_)
        | Value::Tuple(_)
        | Value::Func(_, _)
        | Value::Module(_)
        | Value::Kind(_)
        | Value::Exc(_, _)
        | Value::Builtin(_) => lack(alloc, which),
    }
}

/// Whether a value has a method. A caller asks this before it evaluates the arguments.
pub fn has_method(which: Method, on: &Value) -> bool
    ensures { result ≡ has_method which (plain on.now) }
{
    match on {
        Value::List(_) => matches!(which, Method::Append | Method::Pop),
        Value::Dict(_) => matches!(which, Method::Pop | Method::Get | Method::Keys),
        Value::Str(_) => matches!(which, Method::StartsWith | Method::Join | Method::Split),
        Value::None
        | Value::Bool(_)
        | Value::Int(_)
        | Value::Tuple(_)
        | Value::Func(_, _)
        | Value::Module(_)
        | Value::Kind(_)
        | Value::Exc(_, _)
        | Value::Builtin(_) => false,
    }
}

/// The answer of a value that lacks the method, on whatever heap.
fn lack(alloc: Global, which: Method) -> Result<Result<Value, Raised>, NoMemory>
    ensures { AnswersAnywhere result (λ _. Err (no_attribute (method_name which))) }
{
    let text = Text::from_str(alloc, absent_text(which))?;
    let arg = Argument::of(alloc, Value::Str(text))?;
    Ok(Err(Raised {
        kind: ExcKind::AttributeError,
        arg,
    }))
}

fn absent_text(which: Method) -> &'static str
    ensures { result.now ≡ absent_text (method_name which) }
{
    match which {
        Method::Append => "no attribute 'append'",
        Method::Pop => "no attribute 'pop'",
        Method::Get => "no attribute 'get'",
        Method::Keys => "no attribute 'keys'",
        Method::StartsWith => "no attribute 'startswith'",
        Method::Join => "no attribute 'join'",
        Method::Split => "no attribute 'split'",
    }
}
