// Rows of texts and displays. The expected values are those of CPython 3.11, but for functions,
// modules and built-in functions, whose texts are the language's own.

use py_builtins::{BUILTINS, KINDS, builtin_name, kind_name, repr_of, str_of};
use py_value::{
    Addr, Argument, Builtin, ExcKind, FuncId, Heap, Items, ModId, NoMemory, Raised, Text, Value,
    store,
};
use std::alloc::Global;

mod rows;

use rows::{MISSPELT, Row, VALUES};

fn kind_named(name: &str) -> Option<ExcKind> {
    for kind in &KINDS {
        if kind_name(*kind) == name {
            return Some(*kind);
        }
    }
    None
}

fn builtin_named(name: &str) -> Option<Builtin> {
    for which in &BUILTINS {
        if builtin_name(*which) == name {
            return Some(*which);
        }
    }
    if builtin_name(Builtin::Exit) == name {
        Some(Builtin::Exit)
    } else {
        None
    }
}

fn text_value(alloc: Global, text: &str) -> Result<Value, NoMemory> {
    Ok(Value::Str(Text::from_str(alloc, text)?))
}

fn one(alloc: Global, value: Value) -> Result<Vec<Value>, NoMemory> {
    let mut values = Vec::new(alloc);
    values.push(value)?;
    Ok(values)
}

/// The last values, of as many as a word counts; none where there are fewer.
fn last(alloc: Global, made: &mut Vec<Value>, count: &str) -> Result<Option<Vec<Value>>, NoMemory> {
    let Ok(count) = count.parse::<u32>() else {
        return Ok(None);
    };
    let mut values = Vec::new(alloc);
    for _ in 0..count {
        let Some(value) = made.pop() else {
            return Ok(None);
        };
        values.insert(0, value)?;
    }
    Ok(Some(values))
}

fn make_dict(
    alloc: Global,
    made: &mut Vec<Value>,
    count: &str,
    heap: &mut Heap,
) -> Result<Option<Value>, NoMemory> {
    let Ok(count) = count.parse::<u32>() else {
        return Ok(None);
    };
    let mut values = Vec::new(alloc);
    for _ in 0..count {
        let Some(value) = made.pop() else {
            return Ok(None);
        };
        let Some(key) = made.pop() else {
            drop(value);
            return Ok(None);
        };
        values.push((key, value))?;
    }
    let dict = Value::Dict(heap.make_dict()?);
    for _ in 0..count {
        if let Some((key, value)) = values.pop() {
            let _ = store(alloc, &dict, &key, value, heap)?;
        }
    }
    Ok(Some(dict))
}

/// The value of a word and of those before it; none where the word is misspelt.
fn made_by(
    alloc: Global,
    word: &str,
    made: &mut Vec<Value>,
    heap: &mut Heap,
) -> Result<Option<Value>, NoMemory> {
    if let Some(text) = word.strip_prefix("'") {
        return Ok(Some(text_value(alloc, text)?));
    }
    if let Some(count) = word.strip_prefix("(") {
        let Some(items) = last(alloc, made, count)? else {
            return Ok(None);
        };
        return Ok(Some(Value::Tuple(Items::new(alloc, items)?)));
    }
    if let Some(count) = word.strip_prefix("[") {
        let Some(items) = last(alloc, made, count)? else {
            return Ok(None);
        };
        return Ok(Some(Value::List(heap.make_list(items)?)));
    }
    if let Some(count) = word.strip_prefix("{") {
        return make_dict(alloc, made, count, heap);
    }
    named(alloc, word, made)
}

fn kind_value(name: &str) -> Option<Value> {
    Some(Value::Kind(kind_named(name)?))
}

fn bare_exception(name: &str) -> Option<Value> {
    Some(Value::Exc(kind_named(name)?, Argument::none()))
}

fn builtin_value(name: &str) -> Option<Value> {
    Some(Value::Builtin(builtin_named(name)?))
}

fn exception(alloc: Global, name: &str, made: &mut Vec<Value>) -> Result<Option<Value>, NoMemory> {
    let Some(kind) = kind_named(name) else {
        return Ok(None);
    };
    let Some(arg) = made.pop() else {
        return Ok(None);
    };
    Ok(Some(Value::Exc(kind, Argument::of(alloc, arg)?)))
}

fn named(alloc: Global, word: &str, made: &mut Vec<Value>) -> Result<Option<Value>, NoMemory> {
    if let Some(name) = word.strip_prefix("#") {
        return Ok(kind_value(name));
    }
    if let Some(name) = word.strip_prefix("!") {
        return Ok(bare_exception(name));
    }
    if let Some(name) = word.strip_prefix("?") {
        return exception(alloc, name, made);
    }
    if let Some(name) = word.strip_prefix("@") {
        return Ok(builtin_value(name));
    }
    Ok(plain(word))
}

fn plain(word: &str) -> Option<Value> {
    match word {
        "None" => Some(Value::None),
        "True" => Some(Value::Bool(true)),
        "False" => Some(Value::Bool(false)),
        "function" => Some(Value::Func(FuncId { module: 0, unit: 1 }, None)),
        "module" => Some(Value::Module(ModId::Sys)),
        _ => match word.parse::<i64>() {
            Ok(n) => Some(Value::Int(n)),
            Err(_) => None,
        },
    }
}

/// The value that a row's words make; none where a word is misspelt.
fn make(alloc: Global, words: &str, heap: &mut Heap) -> Result<Option<Value>, NoMemory> {
    let mut made = Vec::new(alloc);
    for word in words.split(';') {
        let Some(value) = made_by(alloc, word, &mut made, heap)? else {
            return Ok(None);
        };
        made.push(value)?;
    }
    Ok(made.pop())
}

fn is_text(answer: &Result<Text, Raised>, wanted: &str) -> bool {
    match answer {
        Ok(text) => text.as_str() == wanted,
        Err(_) => false,
    }
}

fn is_raised(answer: &Result<Text, Raised>, kind: ExcKind) -> bool {
    match answer {
        Ok(_) => false,
        Err(raised) => raised.kind.is_same(kind),
    }
}

fn has_length(answer: &Result<Text, Raised>, length: usize) -> bool {
    match answer {
        Ok(text) => text.len() == length,
        Err(_) => false,
    }
}

fn gives(
    alloc: Global,
    value: &Value,
    heap: &Heap,
    text: &str,
    display: &str,
) -> Result<bool, NoMemory> {
    let by_str = str_of(alloc, value, heap)?;
    let by_repr = repr_of(alloc, value, heap)?;
    Ok(is_text(&by_str, text) && is_text(&by_repr, display))
}

fn is_right(alloc: Global, row: &Row) -> Result<bool, NoMemory> {
    let mut heap = Heap::new(alloc);
    match make(alloc, row.0, &mut heap)? {
        Some(value) => gives(alloc, &value, &heap, row.1, row.2),
        None => Ok(false),
    }
}

#[test]
fn values(rt: HostRuntime) {
    for row in &VALUES {
        let right = is_right(rt.alloc(), row).expect(&rt, "memory");
        let words = row.0;
        assert!(rt; right, "at {words}");
    }
}

#[test]
fn misspelt_words(rt: HostRuntime) {
    let alloc = rt.alloc();
    for row in &MISSPELT {
        let words = *row;
        let mut heap = Heap::new(alloc);
        let made = make(alloc, words, &mut heap).expect(&rt, "memory");
        assert!(rt; made.is_none(), "at {words}");
    }
}

/// `l = []`, `d = {'l': l}`, then `l` gets `d`, `(l,)` and an empty list twice.
fn knot(alloc: Global, heap: &mut Heap) -> Result<(Addr, Addr), NoMemory> {
    let list = heap.make_list(Vec::new(alloc))?;
    let dict = heap.make_dict()?;
    let key = text_value(alloc, "l")?;
    let _ = store(alloc, &Value::Dict(dict), &key, Value::List(list), heap)?;
    heap.push(list, Value::Dict(dict))?;
    let alone = Items::new(alloc, one(alloc, Value::List(list))?)?;
    heap.push(list, Value::Tuple(alone))?;
    let empty = heap.make_list(Vec::new(alloc))?;
    heap.push(list, Value::List(empty))?;
    heap.push(list, Value::List(empty))?;
    Ok((list, dict))
}

#[test]
fn inside_themselves(rt: HostRuntime) {
    let alloc = rt.alloc();
    let mut heap = Heap::new(alloc);
    let (list, dict) = knot(alloc, &mut heap).expect(&rt, "memory");
    let of_list = "[{'l': [...]}, ([...],), [], []]";
    let of_dict = "{'l': [{...}, ([...],), [], []]}";
    let right = gives(alloc, &Value::List(list), &heap, of_list, of_list).expect(&rt, "memory");
    assert!(rt; right, "the list");
    let right = gives(alloc, &Value::Dict(dict), &heap, of_dict, of_dict).expect(&rt, "memory");
    assert!(rt; right, "the dict");
}

/// A list in so many others, each in the next.
fn nested(alloc: Global, count: u32, heap: &mut Heap) -> Result<Value, NoMemory> {
    let mut list = heap.make_list(Vec::new(alloc))?;
    for _ in 0..count {
        list = heap.make_list(one(alloc, Value::List(list))?)?;
    }
    Ok(Value::List(list))
}

/// A list of the same list twice, and so on.
fn doubled(alloc: Global, count: u32, heap: &mut Heap) -> Result<Value, NoMemory> {
    let mut list = heap.make_list(Vec::new(alloc))?;
    for _ in 0..count {
        let mut items = one(alloc, Value::List(list))?;
        items.push(Value::List(list))?;
        list = heap.make_list(items)?;
    }
    Ok(Value::List(list))
}

fn raises(alloc: Global, value: &Value, heap: &Heap, kind: ExcKind) -> Result<bool, NoMemory> {
    let by_str = str_of(alloc, value, heap)?;
    let by_repr = repr_of(alloc, value, heap)?;
    Ok(is_raised(&by_str, kind) && is_raised(&by_repr, kind))
}

#[test]
fn depths(rt: HostRuntime) {
    let alloc = rt.alloc();
    let mut heap = Heap::new(alloc);
    let deep = nested(alloc, 199, &mut heap).expect(&rt, "memory");
    let text = str_of(alloc, &deep, &heap).expect(&rt, "memory");
    assert!(rt; has_length(&text, 400), "as deep as may be");
    let deeper = nested(alloc, 200, &mut heap).expect(&rt, "memory");
    let raised = raises(alloc, &deeper, &heap, ExcKind::RecursionError).expect(&rt, "memory");
    assert!(rt; raised, "one level too deep");
    let wide = doubled(alloc, 150, &mut heap).expect(&rt, "memory");
    let raised = raises(alloc, &wide, &heap, ExcKind::MemoryError).expect(&rt, "memory");
    assert!(rt; raised, "too many characters");
}

/// A text of so many characters.
fn long(alloc: Global, count: usize) -> Result<Value, NoMemory> {
    let text = Text::from_str(alloc, "é")?;
    Ok(Value::Str(text.repeat(count)?))
}

#[test]
fn sizes(rt: HostRuntime) {
    let alloc = rt.alloc();
    let mut heap = Heap::new(alloc);
    let whole = long(alloc, 1_048_576).expect(&rt, "memory");
    let text = str_of(alloc, &whole, &heap).expect(&rt, "memory");
    assert!(rt; has_length(&text, 1_048_576), "as long as may be");
    let display = repr_of(alloc, &whole, &heap).expect(&rt, "memory");
    assert!(rt;
        is_raised(&display, ExcKind::MemoryError),
        "its marks are two too many"
    );
    let short = long(alloc, 1_048_574).expect(&rt, "memory");
    let display = repr_of(alloc, &short, &heap).expect(&rt, "memory");
    assert!(rt;
        has_length(&display, 1_048_576),
        "as long as may be with its marks"
    );
    let deep = nested(alloc, 200, &mut heap).expect(&rt, "memory");
    let mut items = one(alloc, short).expect(&rt, "memory");
    items.push(deep).expect(&rt, "memory");
    let list = Value::List(heap.make_list(items).expect(&rt, "memory"));
    let raised = raises(alloc, &list, &heap, ExcKind::MemoryError).expect(&rt, "memory");
    assert!(rt; raised, "too long before it is too deep");
    let deep = nested(alloc, 200, &mut heap).expect(&rt, "memory");
    let mut items = one(alloc, deep).expect(&rt, "memory");
    items.push(whole).expect(&rt, "memory");
    let list = Value::List(heap.make_list(items).expect(&rt, "memory"));
    let raised = raises(alloc, &list, &heap, ExcKind::RecursionError).expect(&rt, "memory");
    assert!(rt; raised, "too deep before it is too long");
}
