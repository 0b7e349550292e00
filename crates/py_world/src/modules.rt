// The modules that imports name.
ghost use Rattle.std.specs.Prelude.{◌≡◌, ◌≤◌, length, IfOk};
ghost use Rattle.py_value.specs.View.{plain_value_answer};
ghost use Rattle.py_code.specs.Loaded.{modules_of, most_numbered};
ghost use Rattle.py_code.specs.Machine.{imported};
ghost use Rattle.py_code.specs.Units.{imported_number};

use crate::faults::no_module;
use crate::texts::{is_sys, is_text};
use py_code::Programs;
use py_value::value::ModId;
use py_value::{NoMemory, Raised, Text, Value};
use std::alloc::Global;

/// The module of a name.
pub fn imported(
    alloc: Global,
    name: &Text,
    programs: &Programs,
) -> Result<Result<Value, Raised>, NoMemory>
    requires { length (modules_of programs.now) ≤ most_numbered }
    ensures { IfOk result (λ answer.
        plain_value_answer answer ≡ imported (modules_of programs.now) name.now) }
{
    if is_sys(name) {
        return Ok(Ok(Value::Module(ModId::Sys)));
    }
    match imported_number(name, programs) {
        None => Ok(Err(no_module(alloc, name)?)),
        Some(module) => Ok(Ok(Value::Module(ModId::Loaded(module)))),
    }
}

/// The number of the module of a name: never the script.
pub fn imported_number(name: &Text, programs: &Programs) -> Option<u32>
    requires { length (modules_of programs.now) ≤ most_numbered }
    ensures { result ≡ imported_number (modules_of programs.now) name.now }
{
    let mut number = 1;
    while number < programs.modules.len() {
        if is_text(name, programs.modules[number].name.as_str()) {
            return Some(number as u32);
        }
        number += 1;
    }
    None
}
