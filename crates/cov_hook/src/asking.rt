// Calls of a hook's function.
ghost use Rattle.std.specs.Prelude.{◌≡◌, ◌<◌, ◌≤◌, length, IfOk, OnOk, []};
ghost use Rattle.py_value.specs.View.{plain, plains};
ghost use Rattle.py_code.specs.Loaded.{modules_of, most_numbered};
ghost use Rattle.py_machine.specs.Outcomes.{plain_called};
ghost use Rattle.py_world.specs.Stores.{world_of};
ghost use Rattle.cov_hook.specs.Questions.{asking, label_in, label_of, texts, world_after_call};
ghost use Rattle.cov_hook.specs.View.{world_in, Gives};

use crate::opening::MOST_STEPS;
use cov_event::Silent;
use cov_outside::{NullSink, SureSource};
use py_builtins::RunFault;
use py_code::Programs;
use py_machine::{Called, Store, call};
use py_value::{NoMemory, Text, Value};
use std::alloc::{AllocError, Global};

/// The label that a call gave, if it gave one, and the store after it, if the hook goes on.
#[derive(Drop)]
pub struct Asked {
    pub label: Option<Text>,
    pub store: Option<Box<Store>>,
}

/// Two names as values.
fn text_values(alloc: Global, module: &str, function: &str) -> Result<Vec<Value>, NoMemory>
    ensures { IfOk result (λ values. plains values.items ≡ texts «module».now function.now) }
{
    let mut values = Vec::with_capacity(alloc, 2)?;
    values.push(Value::Str(Text::from_str(alloc, module)?))?;
    values.push(Value::Str(Text::from_str(alloc, function)?))?;
    Ok(values)
}

/// Calls the script's function of this name with the names of a module and of a function, with empty
/// input and with its output thrown away.
fn call_function(
    alloc: Global,
    programs: &Programs,
    name: &Text,
    module: &str,
    function: &str,
    store: &mut Store,
) -> Result<Called, NoMemory>
    requires some { 0 < length (modules_of programs.now) }
    requires few { length (modules_of programs.now) ≤ most_numbered }
    ensures returned { IfOk result (λ called. plain_called called
        ≡ (asking (modules_of programs.now) name.now «module».now function.now
        (world_of store.old)).returned) }
    ensures world { OnOk result (world_of store.new
        ≡ (asking (modules_of programs.now) name.now «module».now function.now
        (world_of store.old)).world) }
{
    let values = text_values(alloc, module, function)?;
    let mut input = SureSource::new(Vec::new(alloc));
    match call(
        alloc,
        programs,
        store,
        0,
        name.as_str(),
        &values,
        MOST_STEPS,
        &mut Silent,
        &mut input,
        &mut NullSink,
    ) {
        Ok(answer) => Ok(answer.called),
        Err(RunFault::ReadFault) => unreachable!(),
        Err(RunFault::WriteFault) => unreachable!(),
        Err(RunFault::NoMemory) => Err(AllocError),
    }
}

/// The label that a value is: a text, and no other.
fn label_in(value: &Value) -> Result<Option<Text>, NoMemory>
    ensures { IfOk result (λ text. text ≡ label_in (plain value.now)) }
{
    match value {
        Value::Str(text) => Ok(Some(text.copy()?)),
        Value::None
        | Value::Bool(_)
        | Value::Int(_)
        | Value::Tuple(_)
        | Value::List(_)
        | Value::Dict(_)
        | Value::Func(_, _)
        | Value::Module(_)
        | Value::Kind(_)
        | Value::Exc(_, _)
        | Value::Builtin(_) => Ok(None),
    }
}

/// The label that a call gave.
fn label_of(called: &Called) -> Result<Option<Text>, NoMemory>
    ensures { IfOk result (λ label. label ≡ label_of (plain_called called.now)) }
{
    match called {
        Called::Gave(value) => label_in(value),
        Called::Raised(_, _) => Ok(None),
        Called::Cut => Ok(None),
    }
}

/// The store after a call, if it gave a value. `sys.exit` raises too.
fn store_after_call(called: &Called, store: Box<Store>) -> Option<Box<Store>>
    ensures { world_in result
        ≡ world_after_call (plain_called called.now) (world_of store.value) }
{
    match called {
        Called::Gave(_) => Some(store),
        Called::Raised(_, _) => None,
        Called::Cut => None,
    }
}

/// Asks the script's function of this name for a label.
pub fn ask_function(
    alloc: Global,
    programs: &Programs,
    name: &Text,
    module: &str,
    function: &str,
    mut store: Box<Store>,
) -> Result<Asked, NoMemory>
    requires some { 0 < length (modules_of programs.now) }
    requires few { length (modules_of programs.now) ≤ most_numbered }
    ensures { IfOk result (λ asked. Gives
        (asking (modules_of programs.now) name.now «module».now function.now
        (world_of store.value)) asked) }
{
    let called = call_function(alloc, programs, name, module, function, &mut store)?;
    let label = label_of(&called)?;
    let store = store_after_call(&called, store);
    Ok(Asked { label, store })
}
