// Rows of the table of operators. The expected values are those of the Python Language Reference.

use crate::literals::Lit::{Dict, Int, List, Str};
use crate::literals::Want::Raises;
use crate::literals::{is_made, is_wanted, make};
use py_value::{
    BinOp, CmpOp, ExcKind, Heap, Value, binary, compare, in_place, index, slice, store, truth,
    update,
};

mod arithmetic;
mod comparing;
mod parts;

use arithmetic::{AUGMENTED, BINARY};
use comparing::COMPARED;
use parts::{INDEXED, SLICED, TRUTHS};

#[test]
fn binary_operators(rt: HostRuntime) {
    for row in &BINARY {
        let alloc = rt.alloc();
        let mut heap = Heap::new(alloc);
        let left = make(alloc, row.2, &mut heap).expect(&rt, "memory");
        let right = make(alloc, row.3, &mut heap).expect(&rt, "memory");
        let answer = binary(alloc, row.1, &left, &right, &mut heap).expect(&rt, "memory");
        assert!(rt; is_wanted(&answer, row.4, &heap), "{}", row.0);
        assert!(rt; is_made(&left, row.2, &heap), "{}", row.0);
    }
}

#[test]
fn augmented_operators(rt: HostRuntime) {
    for row in &AUGMENTED {
        let alloc = rt.alloc();
        let mut heap = Heap::new(alloc);
        let left = make(alloc, row.2, &mut heap).expect(&rt, "memory");
        let right = make(alloc, row.3, &mut heap).expect(&rt, "memory");
        let answer = in_place(alloc, row.1, &left, &right, &mut heap).expect(&rt, "memory");
        assert!(rt; is_wanted(&answer, row.4, &heap), "{}", row.0);
    }
}

#[test]
fn updated_values(rt: HostRuntime) {
    for row in &AUGMENTED {
        let alloc = rt.alloc();
        let mut heap = Heap::new(alloc);
        let mut target = make(alloc, row.2, &mut heap).expect(&rt, "memory");
        let right = make(alloc, row.3, &mut heap).expect(&rt, "memory");
        let answer = update(alloc, row.1, &mut target, &right, &mut heap).expect(&rt, "memory");
        let answer = match answer {
            Ok(()) => Ok(target),
            Err(raised) => Err(raised),
        };
        assert!(rt; is_wanted(&answer, row.4, &heap), "{}", row.0);
    }
}

#[test]
fn comparisons(rt: HostRuntime) {
    for row in &COMPARED {
        let alloc = rt.alloc();
        let mut heap = Heap::new(alloc);
        let left = make(alloc, row.2, &mut heap).expect(&rt, "memory");
        let right = make(alloc, row.3, &mut heap).expect(&rt, "memory");
        let answer = compare(alloc, row.1, &left, &right, &heap).expect(&rt, "memory");
        let answer = answer.map(Value::Bool);
        assert!(rt; is_wanted(&answer, row.4, &heap), "{}", row.0);
    }
}

#[test]
fn items_and_parts(rt: HostRuntime) {
    let alloc = rt.alloc();
    for row in &INDEXED {
        let mut heap = Heap::new(alloc);
        let of = make(alloc, row.1, &mut heap).expect(&rt, "memory");
        let at = make(alloc, row.2, &mut heap).expect(&rt, "memory");
        let answer = index(alloc, &of, &at, &heap).expect(&rt, "memory");
        assert!(rt; is_wanted(&answer, row.3, &heap), "{}", row.0);
    }
    for row in &SLICED {
        let mut heap = Heap::new(alloc);
        let of = make(alloc, row.1, &mut heap).expect(&rt, "memory");
        let answer = slice(alloc, &of, row.2, row.3, &mut heap).expect(&rt, "memory");
        assert!(rt; is_wanted(&answer, row.4, &heap), "{}", row.0);
    }
    for row in &TRUTHS {
        let mut heap = Heap::new(alloc);
        let value = make(alloc, row.1, &mut heap).expect(&rt, "memory");
        assert!(rt; truth(&value, &heap) == row.2, "{}", row.0);
    }
}

#[test]
fn shared_lists(rt: HostRuntime) {
    let alloc = rt.alloc();
    let mut heap = Heap::new(alloc);
    let list = make(alloc, List(&[1]), &mut heap).expect(&rt, "memory");
    let same = list.copy(alloc).expect(&rt, "memory");
    let more = make(alloc, List(&[2]), &mut heap).expect(&rt, "memory");
    let _ = in_place(alloc, BinOp::Add, &list, &more, &mut heap).expect(&rt, "memory");
    let stored = store(alloc, &list, &Value::Int(0), Value::Int(5), &mut heap).expect(
        &rt, "memory",
    );
    assert!(rt; stored.is_ok());
    assert!(rt; is_made(&same, List(&[5, 2]), &heap));
    let _ = in_place(alloc, BinOp::Add, &list, &same, &mut heap).expect(&rt, "memory");
    assert!(rt; is_made(&same, List(&[5, 2, 5, 2]), &heap));
    let outside = store(alloc, &list, &Value::Int(4), Value::None, &mut heap).expect(&rt, "memory");
    let answer = outside.map(|_| Value::None);
    assert!(rt;
        is_wanted(
            &answer,
            Raises(ExcKind::IndexError, "list assignment index out of range"),
            &heap
        )
    );
    if let Value::List(addr) = &list {
        heap.push(*addr, same).expect(&rt, "memory");
    }
    let answer = compare(alloc, CmpOp::Eq, &list, &list, &heap).expect(&rt, "memory");
    let answer = answer.map(Value::Bool);
    assert!(rt;
        is_wanted(
            &answer,
            Raises(ExcKind::RecursionError, "maximum recursion depth exceeded"),
            &heap
        )
    );
}

#[test]
fn dicts_keep_their_order(rt: HostRuntime) {
    let alloc = rt.alloc();
    let mut heap = Heap::new(alloc);
    let dict = make(alloc, Dict(&[("a", 1), ("b", 2)]), &mut heap).expect(&rt, "memory");
    let key = make(alloc, Str("a"), &mut heap).expect(&rt, "memory");
    let stored = store(alloc, &dict, &key, Value::Int(9), &mut heap).expect(&rt, "memory");
    assert!(rt; stored.is_ok());
    let addr = heap.make_dict().expect(&rt, "memory");
    assert!(rt; heap.len(addr) == 0 && !heap.is_list(addr));
    let copy = heap.copy().expect(&rt, "memory");
    if let Value::Dict(addr) = &dict {
        assert!(rt; copy.len(*addr) == 2);
        assert!(rt; copy.place_of(*addr, &key) == Some(0));
        if copy.len(*addr) == 2 {
            assert!(rt; is_made(copy.item(*addr, 0), Int(9), &copy));
        }
    }
}
