// Names after dots: of modules, and methods of values.
ghost use Rattle.std.specs.Prelude.{◌≡◌, IfOk};
ghost use Rattle.py_text.specs.Comparison.{is_same_text};
ghost use Rattle.py_value.specs.View.{plain, plain_value_answer};
ghost use Rattle.py_builtins.specs.Attributes.{attribute, method_among, method_named};
ghost use Rattle.py_builtins.specs.Callees.{callee_of, taken};
ghost use Rattle.py_builtins.specs.Methods.{method_name};
ghost use Rattle.py_world.specs.Stores.{world_of};
ghost use Rattle.py_world.specs.Values.{plain_callee_answer};

use crate::faults::{no_attribute, no_import};
use crate::store::Store;
use crate::texts::is_text;
use py_builtins::has_method;
use py_value::{Method, NoMemory, Raised, Text, Value};
use std::alloc::Global;

/// What is called: a value, or a method of one.
#[derive(Drop)]
pub struct Callee {
    pub method: Option<Method>,
    pub value: Value,
}

/// A name after a dot.
pub fn attribute(
    alloc: Global,
    value: &Value,
    name: &Text,
    store: &Store,
) -> Result<Result<Value, Raised>, NoMemory>
    ensures { IfOk result (λ answer.
        plain_value_answer answer ≡ attribute (plain value.now) name.now (world_of store.now)) }
{
    match value {
        Value::Module(module) => match store.name_of(alloc, *module, name)? {
            None => Ok(Err(no_attribute(alloc, name)?)),
            Some(found) => Ok(Ok(found)),
        },
        _ => Ok(Err(no_attribute(alloc, name)?)),
    }
}

/// A name of a module, by an import.
pub fn taken(
    alloc: Global,
    from: &Text,
    value: &Value,
    name: &Text,
    store: &Store,
) -> Result<Result<Value, Raised>, NoMemory>
    ensures { IfOk result (λ answer.
        plain_value_answer answer
        ≡ taken from.now (plain value.now) name.now (world_of store.now)) }
{
    match value {
        Value::Module(module) => match store.name_of(alloc, *module, name)? {
            None => Ok(Err(no_import(alloc, from, name)?)),
            Some(found) => Ok(Ok(found)),
        },
        _ => Ok(Err(no_import(alloc, from, name)?)),
    }
}

/// What is called after a dot: a name of a module, or a method of the value.
pub fn callee_of(
    alloc: Global,
    value: Value,
    name: &Text,
    store: &Store,
) -> Result<Result<Callee, Raised>, NoMemory>
    ensures { IfOk result (λ answer.
        plain_callee_answer answer ≡ callee_of (plain value) name.now (world_of store.now)) }
{
    if let Value::Module(module) = &value {
        return match store.name_of(alloc, *module, name)? {
            None => Ok(Err(no_attribute(alloc, name)?)),
            Some(found) => Ok(Ok(Callee {
                method: None,
                value: found,
            })),
        };
    }
    match method_named(&value, name) {
        None => {
            drop(value);
            Ok(Err(no_attribute(alloc, name)?))
        }
        Some(method) => Ok(Ok(Callee {
            method: Some(method),
            value,
        })),
    }
}

/// The method of a value by its name.
fn method_named(value: &Value, name: &Text) -> Option<Method>
    ensures { result ≡ method_named (plain value.now) name.now }
{
    match method_among(name, &METHODS) {
        None => None,
        Some(method) => {
            if has_method(method, value) {
                Some(method)
            } else {
                None
            }
        }
    }
}

fn method_among(name: &Text, all: &[Method]) -> Option<Method>
    ensures { result ≡ method_among all.now name.now }
{
    for method in all {
        if is_method(name, *method) {
            return Some(*method);
        }
    }
    None
}

/// Whether a method has this name.
fn is_method(name: &Text, method: Method) -> bool
    ensures { result ≡ is_same_text name.now (method_name method) }
{
    is_text(name, method_name(method))
}

const METHODS: [Method; 7] = [
    Method::Append,
    Method::Pop,
    Method::Get,
    Method::Keys,
    Method::StartsWith,
    Method::Join,
    Method::Split,
];

fn method_name(method: Method) -> &'static str
    ensures { result.now ≡ method_name method }
{
    match method {
        Method::Append => "append",
        Method::Pop => "pop",
        Method::Get => "get",
        Method::Keys => "keys",
        Method::StartsWith => "startswith",
        Method::Join => "join",
        Method::Split => "split",
    }
}
