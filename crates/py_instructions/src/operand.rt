// What stands on the operands of a frame.
ghost use Rattle.std.specs.Prelude.{◌≡◌, IfOk, IfSome};
ghost use Rattle.py_value.specs.Plain.{none_value, bool_value, int_value};
ghost use Rattle.py_value.specs.View.{plain, plain_raised};
ghost use Rattle.py_code.specs.Configurations.{of_value, on};
ghost use Rattle.py_code.specs.Operands.{value_in, callee_in, operand_of, walk_in, way_in, exception_of_way, exception_in};
ghost use Rattle.py_world.specs.Values.{plain_callee};
ghost use Rattle.py_instructions.specs.Operands.{plain_way, plain_operand, plain_walk, is_builtin, borrows_values};

use py_value::{Argument, ExcKind, Method, NoMemory, Raised, Value};
use py_world::Callee;
use std::alloc::Global;

/// The way in which a suite is left.
#[derive(Drop)]
pub enum Way {
    On,
    Break,
    Continue,
    Return(Value),
    /// By an exception, with whether it was thrown there.
    Raise(Raised, bool),
}

/// What stands on the operands: a value; a method with the value that it is called on; the walk
/// over a value, with its number of items at the start and the place of the next one; or a way out.
pub enum Operand {
    Value(Value),
    Method(Method, Value),
    Walk(Value, usize, usize),
    Way(Way),
}

// Written out, and not derived, so that letting it go is one call wherever that happens.
impl Drop for Operand {
    fn drop(self) {
        match self {
            Operand::Value(value) => drop(value),
            Operand::Method(_, value) => drop(value),
            Operand::Walk(value, _, _) => drop(value),
            Operand::Way(way) => drop(way),
        }
    }
}

/// A walk: the value, its number of items at the start, and the place of the next one.
#[derive(Drop)]
pub struct Walk {
    pub value: Value,
    pub count: usize,
    pub place: usize,
}

/// An equal exception.
pub fn copy_raised(raised: &Raised) -> Result<Raised, NoMemory>
    ensures { IfOk result (λ copy. plain_raised copy ≡ plain_raised raised.now) }
{
    let arg = raised.arg.copy()?;
    Ok(Raised {
        kind: raised.kind,
        arg,
    })
}

/// Whether a value is a built-in function.
fn is_builtin(value: &Value) -> bool
    ensures { result ≡ is_builtin (plain value.now) }
{
    match value {
        Value::None => false,
        Value::Bool(_) => false,
        Value::Int(_) => false,
        Value::Str(_) => false,
        Value::Tuple(_) => false,
        Value::List(_) => false,
        Value::Dict(_) => false,
        Value::Func(_, _) => false,
        Value::Module(_) => false,
        Value::Kind(_) => false,
        Value::Exc(_, _) => false,
        Value::Builtin(_) => true,
    }
}

/// The whole number that a value is; a bool is none.
pub(crate) fn number_of(value: &Value) -> Option<i64>
    ensures { IfSome result (λ n. plain value.now ≡ int_value n) }
{
    match value {
        Value::Int(n) => Some(*n),
        Value::None
        | Value::Bool(_)
        | Value::Str(_)
        | Value::Tuple(_)
        | Value::List(_)
        | Value::Dict(_)
        | Value::Func(_, _)
        | Value::Module(_)
        | Value::Kind(_)
        | Value::Exc(_, _)
        | Value::Builtin(_) => None,
    }
}

/// The bool that a value is.
fn bool_of(value: &Value) -> Option<bool>
    ensures { IfSome result (λ b. plain value.now ≡ bool_value b) }
{
    match value {
        Value::Bool(holds) => Some(*holds),
        Value::None
        | Value::Int(_)
        | Value::Str(_)
        | Value::Tuple(_)
        | Value::List(_)
        | Value::Dict(_)
        | Value::Func(_, _)
        | Value::Module(_)
        | Value::Kind(_)
        | Value::Exc(_, _)
        | Value::Builtin(_) => None,
    }
}

impl Way {
    /// An equal way out.
    pub fn copy(&self, alloc: Global) -> Result<Way, NoMemory>
        ensures { IfOk result (λ copy. plain_way copy ≡ plain_way self.now) }
    {
        match self {
            Way::On => Ok(Way::On),
            Way::Break => Ok(Way::Break),
            Way::Continue => Ok(Way::Continue),
            Way::Return(value) => Ok(Way::Return(value.copy(alloc)?)),
            Way::Raise(raised, is_thrown) => Ok(Way::Raise(copy_raised(raised)?, *is_thrown)),
        }
    }
}

impl Operand {
    /// What is called, as an operand.
    pub fn of_callee(callee: Callee) -> Operand
        ensures { plain_operand result ≡ operand_of (plain_callee callee) }
    {
        match callee.method {
            None => Operand::Value(callee.value),
            Some(method) => Operand::Method(method, callee.value),
        }
    }

    /// An equal operand.
    pub fn copy(&self, alloc: Global) -> Result<Operand, NoMemory>
        ensures { IfOk result (λ copy. plain_operand copy ≡ plain_operand self.now) }
    {
        match self {
            Operand::Value(value) => Ok(Operand::Value(value.copy(alloc)?)),
            Operand::Method(method, value) => Ok(Operand::Method(*method, value.copy(alloc)?)),
            Operand::Walk(value, length, place) => {
                Ok(Operand::Walk(value.copy(alloc)?, *length, *place))
            }
            Operand::Way(way) => Ok(Operand::Way(way.copy(alloc)?)),
        }
    }

    /// Whether a call of it only borrows its values: a frame and an exception keep them.
    pub fn borrows_values(&self) -> bool
        ensures { result ≡ borrows_values (plain_operand self.now) }
    {
        match self {
            Operand::Value(value) => is_builtin(value),
            Operand::Method(_, _) => true,
            Operand::Walk(_, _, _) => false,
            Operand::Way(_) => false,
        }
    }

    /// The whole number that it is, if it is one.
    pub(crate) fn number(&self) -> Option<i64>
        ensures { IfSome result (λ n. plain_operand self.now ≡ of_value (int_value n)) }
    {
        match self {
            Operand::Value(value) => number_of(value),
            Operand::Method(_, _) => None,
            Operand::Walk(_, _, _) => None,
            Operand::Way(_) => None,
        }
    }

    /// The bool that it is, if it is one.
    pub(crate) fn bool(&self) -> Option<bool>
        ensures { IfSome result (λ b. plain_operand self.now ≡ of_value (bool_value b)) }
    {
        match self {
            Operand::Value(value) => bool_of(value),
            Operand::Method(_, _) => None,
            Operand::Walk(_, _, _) => None,
            Operand::Way(_) => None,
        }
    }

    /// The value that it is taken for.
    pub fn into_value(self) -> Value
        ensures { plain result ≡ value_in (plain_operand self) }
    {
        match self {
            Operand::Value(value) => value,
            Operand::Method(_, value) => value,
            Operand::Walk(value, _, _) => value,
            Operand::Way(way) => {
                drop(way);
                Value::None
            }
        }
    }

    /// The same, where it stands; `none` is None.
    pub fn value_or<'a>(&'a self, none: &'a Value) -> &'a Value
        requires { plain none.now ≡ none_value }
        ensures { plain result.now ≡ value_in (plain_operand self.now) }
    {
        match self {
            Operand::Value(value) => value,
            Operand::Method(_, value) => value,
            Operand::Walk(value, _, _) => value,
            Operand::Way(_) => none,
        }
    }

    /// The way out that it is taken for.
    pub fn into_way(self) -> Way
        ensures { plain_way result ≡ way_in (plain_operand self) }
    {
        match self {
            Operand::Value(value) => {
                drop(value);
                Way::On
            }
            Operand::Method(_, value) => {
                drop(value);
                Way::On
            }
            Operand::Walk(value, _, _) => {
                drop(value);
                Way::On
            }
            Operand::Way(way) => way,
        }
    }

    /// The walk that it is taken for.
    pub fn into_walk(self) -> Walk
        ensures { plain_walk result ≡ walk_in (plain_operand self) }
    {
        match self {
            Operand::Value(value) => Walk {
                value,
                count: 0,
                place: 0,
            },
            Operand::Method(_, value) => Walk {
                value,
                count: 0,
                place: 0,
            },
            Operand::Walk(value, count, place) => Walk {
                value,
                count,
                place,
            },
            Operand::Way(way) => {
                drop(way);
                Walk {
                    value: Value::None,
                    count: 0,
                    place: 0,
                }
            }
        }
    }

    /// The callee that it is taken for.
    pub fn into_callee(self) -> Callee
        ensures { plain_callee result ≡ callee_in (plain_operand self) }
    {
        match self {
            Operand::Value(value) => Callee {
                method: None,
                value,
            },
            Operand::Method(method, value) => Callee {
                method: Some(method),
                value,
            },
            Operand::Walk(value, _, _) => Callee {
                method: None,
                value,
            },
            Operand::Way(way) => {
                drop(way);
                Callee {
                    method: None,
                    value: Value::None,
                }
            }
        }
    }

    /// The exception that it is taken for.
    pub fn exception(&self) -> Result<Raised, NoMemory>
        ensures { IfOk result (λ raised.
            plain_raised raised ≡ exception_in (plain_operand self.now)) }
    {
        match self {
            Operand::Way(way) => match way {
                Way::Raise(raised, _) => copy_raised(raised),
                _ => Ok(no_exception()),
            },
            _ => Ok(no_exception()),
        }
    }

    /// The kind of that exception.
    pub fn kind(&self) -> ExcKind
        ensures { result ≡ (exception_in (plain_operand self.now)).kind }
    {
        match self {
            Operand::Way(way) => match way {
                Way::Raise(raised, _) => raised.kind,
                _ => ExcKind::BaseException,
            },
            _ => ExcKind::BaseException,
        }
    }
}

fn no_exception() -> Raised
    ensures { plain_raised result ≡ exception_of_way on }
{
    Raised {
        kind: ExcKind::BaseException,
        arg: Argument::none(),
    }
}
