// Displays of dicts.

ghost use Rattle.std.specs.Prelude.{◌≡◌, ◌<◌, ℕ, OnOk, Some, length, slice_get};
ghost use Rattle.py_value.specs.HeapView.{plain_heap};
ghost use Rattle.py_value.specs.Heaps.{dict_pairs};
ghost use Rattle.py_value.specs.Plain.{PlainValue, dict_at};
ghost use Rattle.py_builtins.specs.Displays.{separated, pair_display};
ghost use Rattle.py_builtins.specs.Texts.{display_around, display_within};
ghost use Rattle.py_builtins.specs.Written.{IsWritten};

use crate::displays::{display, is_among};
use crate::writer::{Stop, Writer};
use py_value::{Addr, Heap};

#[cycle(display)]
pub(crate) fn display_dict(
    levels: u32,
    heap: &Heap,
    dict: Addr,
    inside: &mut Vec<usize>,
    out: &mut Writer,
) -> Result<(), Stop>
    ensures written { IsWritten result out.old.text out.new.text
        (display_around levels (plain_heap heap.now) inside.old.items (dict_at dict.place)) }
    ensures inside { OnOk result (inside.new.items ≡ inside.old.items) }
{
    if is_among(dict.place as usize, inside) {
        return out.push_word("{...}");
    }
    inside.push(dict.place as usize)?;
    out.push_word("{")?;
    display_pairs(levels, heap, dict, inside, out)?;
    out.push_word("}")?;
    inside.pop();
    Ok(())
}

#[cycle(display)]
fn display_pairs(
    levels: u32,
    heap: &Heap,
    dict: Addr,
    inside: &mut Vec<usize>,
    out: &mut Writer,
) -> Result<(), Stop>
    ensures written { IsWritten result out.old.text out.new.text
        (separated (pair_display (display_within levels (plain_heap heap.now) inside.old.items))
        (dict_pairs (plain_heap heap.now) dict.place)) }
    ensures inside { OnOk result (inside.new.items ≡ inside.old.items) }
{
    for i in 0..pair_count(heap, dict) {
        out.separate(i)?;
        display_pair(levels, heap, dict, i, inside, out)?;
    }
    Ok(())
}

#[cycle(display)]
fn display_pair(
    levels: u32,
    heap: &Heap,
    dict: Addr,
    at: usize,
    inside: &mut Vec<usize>,
    out: &mut Writer,
) -> Result<(), Stop>
    requires { at < length (dict_pairs (plain_heap heap.now) dict.place) }
    ensures written { (p : PlainValue × PlainValue)
        → slice_get (dict_pairs (plain_heap heap.now) dict.place) at ≡ Some p
        → IsWritten result out.old.text out.new.text
        (pair_display (display_within levels (plain_heap heap.now) inside.old.items) p) }
    ensures inside { OnOk result (inside.new.items ≡ inside.old.items) }
{
    let key = heap.key(dict, at)?;
    display(levels, &key, heap, inside, out)?;
    out.push_word(": ")?;
    display(levels, heap.item(dict, at), heap, inside, out)
}

/// The number of a dict's pairs.
pub(crate) fn pair_count(heap: &Heap, dict: Addr) -> usize
    ensures { result ≡ length (dict_pairs (plain_heap heap.now) dict.place) }
{
    if heap.is_list(dict) {
        0
    } else {
        heap.len(dict)
    }
}
