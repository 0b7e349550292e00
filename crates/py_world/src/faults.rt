// Exceptions of names.
ghost use Rattle.std.specs.Prelude.{◌≡◌, ◌++◌, IfOk, codes};
ghost use Rattle.std.specs.Str.{chars};
ghost use Rattle.py_value.specs.View.{plain_raised};
ghost use Rattle.py_builtins.specs.Faults.{fault, name_unknown, local_unset, no_module, no_import};
ghost use Rattle.py_builtins.specs.Methods.{no_attribute};

use py_value::{Argument, ExcKind, NoMemory, Raised, Text, Value};
use std::alloc::Global;

/// An exception of a kind with a text.
fn fault(alloc: Global, kind: ExcKind, text: Text) -> Result<Raised, NoMemory>
    ensures { IfOk result (λ raised. plain_raised raised ≡ fault kind text) }
{
    let arg = Argument::of(alloc, Value::Str(text))?;
    Ok(Raised { kind, arg })
}

/// A name between two texts.
fn between(alloc: Global, front: &str, name: &Text, back: &str) -> Result<Text, NoMemory>
    ensures { IfOk result (λ text. text ≡ chars front.now ++ name.now ++ chars back.now) }
{
    let mut text = Text::from_str(alloc, front)?;
    text.append(name)?;
    text.push_str(back)?;
    Ok(text)
}

/// An exception of a kind, whose text has a name between two others.
fn named(
    alloc: Global,
    kind: ExcKind,
    front: &str,
    name: &Text,
    back: &str,
) -> Result<Raised, NoMemory>
    ensures { IfOk result (λ raised.
        plain_raised raised ≡ fault kind (chars front.now ++ name.now ++ chars back.now)) }
{
    let text = between(alloc, front, name, back)?;
    Ok(fault(alloc, kind, text)?)
}

pub fn name_unknown(alloc: Global, name: &Text) -> Result<Raised, NoMemory>
    ensures { IfOk result (λ raised. plain_raised raised ≡ name_unknown name.now) }
{
    Ok(named(
        alloc,
        ExcKind::NameError,
        "name '",
        name,
        "' is not defined",
    )?)
}

pub fn local_unset(alloc: Global, name: &Text) -> Result<Raised, NoMemory>
    ensures { IfOk result (λ raised. plain_raised raised ≡ local_unset name.now) }
{
    Ok(named(
        alloc,
        ExcKind::UnboundLocalError,
        "local variable '",
        name,
        "' is not set",
    )?)
}

pub fn no_attribute(alloc: Global, name: &Text) -> Result<Raised, NoMemory>
    ensures { IfOk result (λ raised. plain_raised raised ≡ no_attribute name.now) }
{
    Ok(named(alloc, ExcKind::AttributeError, "no attribute '", name, "'")?)
}

pub fn no_module(alloc: Global, name: &Text) -> Result<Raised, NoMemory>
    ensures { IfOk result (λ raised. plain_raised raised ≡ no_module name.now) }
{
    Ok(named(
        alloc,
        ExcKind::ModuleNotFoundError,
        "No module named '",
        name,
        "'",
    )?)
}

pub fn no_import(alloc: Global, module: &Text, name: &Text) -> Result<Raised, NoMemory>
    ensures { IfOk result (λ raised. plain_raised raised ≡ no_import «module».now name.now) }
{
    let mut text = between(alloc, "cannot import name '", name, "' from '")?;
    text.append(module)?;
    text.push_str("'")?;
    Ok(fault(alloc, ExcKind::ImportError, text)?)
}
