// Values of the language.

ghost use Rattle.std.specs.Prelude.{◌≡◌, IfOk};
ghost use Rattle.py_value.specs.View.{plain, plains};

use crate::builtin::Builtin;
use crate::exception::ExcKind;
use crate::shared::{Argument, Items};
use py_text::{NoMemory, Text};
use std::alloc::Global;
use std::mem::size_of;

/// A place in the heap's list of objects, counted from 0.
#[derive(Clone, Copy)]
pub struct Addr {
    pub place: u32,
}

/// A function of a source: unit `unit` (counted from 1, in the order of the text) of a module.
#[derive(Clone, Copy)]
pub struct FuncId {
    pub module: u32,
    pub unit: u32,
}

/// A module: a loaded one by its number, or the built-in `sys`.
#[derive(Clone, Copy)]
pub enum ModId {
    Loaded(u32),
    Sys,
}

/// A value. Lists and dicts stand in the heap; a function with defaults names the list that holds
/// them.
#[cycle(value)]
pub enum Value {
    None,
    Bool(bool),
    Int(i64),
    Str(Text),
    Tuple(Items),
    List(Addr),
    Dict(Addr),
    Func(FuncId, Option<Addr>),
    Module(ModId),
    Kind(ExcKind),
    Exc(ExcKind, Argument),
    Builtin(Builtin),
}

// Values are copied and moved at each step of a program.
const _: () = prove!(size_of::<Value>() <= 24);

// Written out, and not derived, so that letting a value go is one call wherever that happens.
impl Drop for Value {
    #[cycle(value)]
    fn drop(self) {
        match self {
            Value::None => (),
            Value::Bool(_) => (),
            Value::Int(_) => (),
            Value::Str(text) => drop(text),
            Value::Tuple(items) => drop(items),
            Value::List(_) => (),
            Value::Dict(_) => (),
            Value::Func(_, _) => (),
            Value::Module(_) => (),
            Value::Kind(_) => (),
            Value::Exc(_, arg) => drop(arg),
            Value::Builtin(_) => (),
        }
    }
}

/// An exception that an operation raises.
#[derive(Drop)]
pub struct Raised {
    pub kind: ExcKind,
    pub arg: Argument,
}

impl Value {
    /// An equal value, which shares what this one holds.
    pub fn copy(&self, _alloc: Global) -> Result<Value, NoMemory>
        ensures { IfOk result (λ copy. plain copy ≡ plain self.now) }
    {
        match self {
            Value::None => Ok(Value::None),
            Value::Bool(b) => Ok(Value::Bool(*b)),
            Value::Int(n) => Ok(Value::Int(*n)),
            Value::Str(text) => Ok(Value::Str(text.copy()?)),
            Value::Tuple(items) => Ok(Value::Tuple(items.copy()?)),
            Value::List(addr) => Ok(Value::List(*addr)),
            Value::Dict(addr) => Ok(Value::Dict(*addr)),
            Value::Func(id, defaults) => Ok(Value::Func(*id, *defaults)),
            Value::Module(id) => Ok(Value::Module(*id)),
            Value::Kind(kind) => Ok(Value::Kind(*kind)),
            Value::Exc(kind, arg) => Ok(Value::Exc(*kind, arg.copy()?)),
            Value::Builtin(which) => Ok(Value::Builtin(*which)),
        }
    }
}

/// Equal values, in the same order.
pub fn copy_all(alloc: Global, values: &[Value]) -> Result<Vec<Value>, NoMemory>
    ensures { IfOk result (λ copies. plains copies.items ≡ plains values.now) }
{
    let mut copies = Vec::with_capacity(alloc, values.len())?;
    for value in values {
        let copy = value.copy(alloc)?;
        copies.push(copy)?;
    }
    Ok(copies)
}
