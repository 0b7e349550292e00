// Displays of values: a walk from left to right, which enters no list or dict again inside itself.

ghost use Rattle.std.specs.Prelude.{◌≡◌, ◌++◌, ◌∷◌, [], IsTrue, OnOk, codes};
ghost use Rattle.py_value.specs.View.{plain, plains};
ghost use Rattle.py_value.specs.HeapView.{plain_heap};
ghost use Rattle.py_value.specs.Plain.{list_at};
ghost use Rattle.py_builtins.specs.Displays.{has, separated, tuple_display, kind_name, builtin_name, exception_display, argument_display};
ghost use Rattle.py_builtins.specs.Texts.{display_around, display_within};
ghost use Rattle.py_builtins.specs.Writing.{whole, ◌▸◌};
ghost use Rattle.py_builtins.specs.Written.{IsWritten, are_ascii};

use crate::names::{builtin_name, kind_name};
use crate::pairs::display_dict;
use crate::writer::{Stop, Writer};
use py_value::{Addr, Argument, Builtin, Cause, ExcKind, Heap, Value};

/// Writes the display of a value that stands inside the lists and dicts at these places of the
/// heap.
#[cycle(display)]
pub(crate) fn display(
    levels: u32,
    value: &Value,
    heap: &Heap,
    inside: &mut Vec<usize>,
    out: &mut Writer,
) -> Result<(), Stop>
    ensures written { IsWritten result out.old.text out.new.text
        (display_within levels (plain_heap heap.now) inside.old.items (plain value.now)) }
    ensures inside { OnOk result (inside.new.items ≡ inside.old.items) }
{
    if levels == 0 {
        return Err(Stop::Raises(Cause::TooDeep));
    }
    display_inside(levels - 1, value, heap, inside, out)
}

#[cycle(display)]
fn display_inside(
    levels: u32,
    value: &Value,
    heap: &Heap,
    inside: &mut Vec<usize>,
    out: &mut Writer,
) -> Result<(), Stop>
    ensures written { IsWritten result out.old.text out.new.text
        (display_around levels (plain_heap heap.now) inside.old.items (plain value.now)) }
    ensures inside { OnOk result (inside.new.items ≡ inside.old.items) }
{
    match value {
        Value::None => out.push_word("None"),
        Value::Bool(true) => out.push_word("True"),
        Value::Bool(false) => out.push_word("False"),
        Value::Int(n) => out.push_number(*n),
        Value::Str(text) => out.push_quoted(text),
        Value::Tuple(items) => display_tuple(levels, items.as_slice(), heap, inside, out),
        Value::List(addr) => display_list(levels, *addr, heap, inside, out),
        Value::Dict(addr) => display_dict(levels, heap, *addr, inside, out),
        Value::Func(_, _) => out.push_word("<function>"),
        Value::Module(_) => out.push_word("<module>"),
        Value::Kind(kind) => display_kind(*kind, out),
        Value::Exc(kind, arg) => display_exception(levels, *kind, arg, heap, inside, out),
        Value::Builtin(which) => display_builtin(*which, out),
    }
}

#[cycle(display)]
fn display_items(
    levels: u32,
    items: &[Value],
    heap: &Heap,
    inside: &mut Vec<usize>,
    out: &mut Writer,
) -> Result<(), Stop>
    ensures written { IsWritten result out.old.text out.new.text
        (separated (display_within levels (plain_heap heap.now) inside.old.items)
        (plains items.now)) }
    ensures inside { OnOk result (inside.new.items ≡ inside.old.items) }
{
    for i in 0..items.len() {
        out.separate(i)?;
        display(levels, &items[i], heap, inside, out)?;
    }
    Ok(())
}

#[cycle(display)]
fn display_tuple(
    levels: u32,
    items: &[Value],
    heap: &Heap,
    inside: &mut Vec<usize>,
    out: &mut Writer,
) -> Result<(), Stop>
    ensures written { IsWritten result out.old.text out.new.text
        (tuple_display (display_within levels (plain_heap heap.now) inside.old.items)
        (plains items.now)) }
    ensures inside { OnOk result (inside.new.items ≡ inside.old.items) }
{
    if items.len() == 1 {
        display_between(levels, "(", items, ",)", heap, inside, out)
    } else {
        display_between(levels, "(", items, ")", heap, inside, out)
    }
}

/// Items between an opening and a closing word.
#[cycle(display)]
fn display_between(
    levels: u32,
    opening: &str,
    items: &[Value],
    closing: &str,
    heap: &Heap,
    inside: &mut Vec<usize>,
    out: &mut Writer,
) -> Result<(), Stop>
    requires opening { IsTrue (are_ascii opening.now) }
    requires closing { IsTrue (are_ascii closing.now) }
    ensures written { IsWritten result out.old.text out.new.text
        (whole opening.now
        ▸ separated (display_within levels (plain_heap heap.now) inside.old.items)
        (plains items.now)
        ▸ whole closing.now) }
    ensures inside { OnOk result (inside.new.items ≡ inside.old.items) }
{
    out.push_word(opening)?;
    display_items(levels, items, heap, inside, out)?;
    out.push_word(closing)
}

#[cycle(display)]
fn display_list(
    levels: u32,
    list: Addr,
    heap: &Heap,
    inside: &mut Vec<usize>,
    out: &mut Writer,
) -> Result<(), Stop>
    ensures written { IsWritten result out.old.text out.new.text
        (display_around levels (plain_heap heap.now) inside.old.items (list_at list.place)) }
    ensures inside { OnOk result (inside.new.items ≡ inside.old.items) }
{
    if is_among(list.place as usize, inside) {
        return out.push_word("[...]");
    }
    inside.push(list.place as usize)?;
    display_between(levels, "[", heap.items(list), "]", heap, inside, out)?;
    inside.pop();
    Ok(())
}

#[cycle(display)]
fn display_exception(
    levels: u32,
    kind: ExcKind,
    arg: &Argument,
    heap: &Heap,
    inside: &mut Vec<usize>,
    out: &mut Writer,
) -> Result<(), Stop>
    ensures written { IsWritten result out.old.text out.new.text
        (exception_display (display_within levels (plain_heap heap.now) inside.old.items) kind
        arg.now) }
    ensures inside { OnOk result (inside.new.items ≡ inside.old.items) }
{
    out.push_word(kind_name(kind))?;
    out.push_word("(")?;
    display_argument(levels, arg, heap, inside, out)?;
    out.push_word(")")
}

#[cycle(display)]
fn display_argument(
    levels: u32,
    arg: &Argument,
    heap: &Heap,
    inside: &mut Vec<usize>,
    out: &mut Writer,
) -> Result<(), Stop>
    ensures written { IsWritten result out.old.text out.new.text
        (argument_display (display_within levels (plain_heap heap.now) inside.old.items) arg.now) }
    ensures inside { OnOk result (inside.new.items ≡ inside.old.items) }
{
    match arg.value() {
        None => Ok(()),
        Some(value) => display(levels, value, heap, inside, out),
    }
}

fn display_kind(kind: ExcKind, out: &mut Writer) -> Result<(), Stop>
    ensures { IsWritten result out.old.text out.new.text
        (whole (codes "<class '" ++ kind_name kind ++ codes "'>")) }
{
    out.push_word("<class '")?;
    out.push_word(kind_name(kind))?;
    out.push_word("'>")
}

fn display_builtin(which: Builtin, out: &mut Writer) -> Result<(), Stop>
    ensures { IsWritten result out.old.text out.new.text
        (whole (codes "<built-in function " ++ builtin_name which ++ codes ">")) }
{
    out.push_word("<built-in function ")?;
    out.push_word(builtin_name(which))?;
    out.push_word(">")
}

pub(crate) fn is_among(place: usize, places: &[usize]) -> bool
    ensures { result ≡ has place places.now }
{
    for other in places {
        if place == *other {
            return true;
        }
    }
    false
}
