// How programs and calls end.
ghost use Rattle.std.specs.Prelude.{◌≡◌, IfOk};
ghost use Rattle.py_value.specs.HeapView.{plain_heap};
ghost use Rattle.py_value.specs.View.{plain, plain_raised};
ghost use Rattle.py_builtins.specs.Outcomes.{low_bits, shown, shown_raised, exit_of};
ghost use Rattle.py_builtins.specs.Outcomes as outcomes;
ghost use Rattle.py_code.specs.Laws.{IsOver};
ghost use Rattle.py_code.specs.Programs.{outcome_by, returned_by};
ghost use Rattle.py_machine.specs.Outcomes.{plain_outcome, plain_called};
ghost use Rattle.py_machine.specs.Endings.{plain_ended};

use crate::ending::Ending;
use py_builtins::str_of;
use py_value::{Argument, ExcKind, Heap, NoMemory, Raised, Text, Value};
use std::alloc::Global;

/// How a program ended: normally; by `sys.exit`, with a status, and with a text where it was given
/// no number; by an exception that nothing caught, with its text; or it was cut, as its budget was
/// spent.
#[derive(Drop)]
pub enum Outcome {
    Finished,
    Exited(u8, Option<Text>),
    Raised(ExcKind, Text),
    Cut,
}

/// How a program ended, and the steps that it took.
#[derive(Drop)]
pub struct Ran {
    pub outcome: Outcome,
    pub steps: u64,
}

/// How a call ended: with a value, by an exception with its text, or it was cut.
#[derive(Drop)]
pub enum Called {
    Gave(Value),
    Raised(ExcKind, Text),
    Cut,
}

/// How a call ended, and the steps that it took.
#[derive(Drop)]
pub struct Answer {
    pub called: Called,
    pub steps: u64,
}

/// The text of a value, empty where that raises.
fn shown(alloc: Global, value: &Value, heap: &Heap) -> Result<Text, NoMemory>
    ensures { IfOk result (λ text. text ≡ shown (plain_heap heap.now) (plain value.now)) }
{
    match str_of(alloc, value, heap)? {
        Ok(text) => Ok(text),
        Err(raised) => {
            drop(raised);
            Ok(Text::new(alloc))
        }
    }
}

/// The text of an exception.
fn shown_raised(alloc: Global, raised: Raised, heap: &Heap) -> Result<Text, NoMemory>
    ensures { IfOk result (λ text.
        text ≡ shown_raised (plain_heap heap.now) (plain_raised raised)) }
{
    let value = Value::Exc(raised.kind, raised.arg);
    shown(alloc, &value, heap)
}

/// The low eight bits of a number.
fn low_bits(n: i64) -> u8
    ensures { result ≡ low_bits n }
{
    if n >= 0 {
        (n.unsigned_abs() % 256) as u8
    } else {
        255 - ((n.unsigned_abs() - 1) % 256) as u8
    }
}

/// `SystemExit` with this argument.
fn exit_of(alloc: Global, arg: &Argument, heap: &Heap) -> Result<Outcome, NoMemory>
    ensures { IfOk result (λ outcome.
        plain_outcome outcome ≡ exit_of (plain_heap heap.now) arg.now) }
{
    match arg.value() {
        None => Ok(Outcome::Exited(0, None)),
        Some(value) => {
            if value.is_none() {
                return Ok(Outcome::Exited(0, None));
            }
            match value.number() {
                None => Ok(Outcome::Exited(1, Some(shown(alloc, value, heap)?))),
                Some(n) => Ok(Outcome::Exited(low_bits(n), None)),
            }
        }
    }
}

impl Ending {
    /// The outcome of a program that ended so.
    pub fn into_outcome(self, alloc: Global, heap: &Heap) -> Result<Outcome, NoMemory>
        requires { IsOver (plain_ended self) }
        ensures { IfOk result (λ outcome.
            plain_outcome outcome ≡ outcome_by (plain_heap heap.now) (plain_ended self)) }
    {
        match self {
            Ending::Gave(value) => {
                drop(value);
                Ok(Outcome::Finished)
            }
            Ending::Failed(raised) => {
                if raised.kind.is_same(ExcKind::SystemExit) {
                    exit_of(alloc, &raised.arg, heap)
                } else {
                    let kind = raised.kind;
                    let text = shown_raised(alloc, raised, heap)?;
                    Ok(Outcome::Raised(kind, text))
                }
            }
            Ending::Spent => Ok(Outcome::Cut),
            Ending::Stuck => unreachable!(),
        }
    }

    /// The answer of a call that ended so.
    pub fn into_called(self, alloc: Global, heap: &Heap) -> Result<Called, NoMemory>
        requires { IsOver (plain_ended self) }
        ensures { IfOk result (λ called.
            plain_called called ≡ returned_by (plain_heap heap.now) (plain_ended self)) }
    {
        match self {
            Ending::Gave(value) => Ok(Called::Gave(value)),
            Ending::Failed(raised) => {
                let kind = raised.kind;
                let text = shown_raised(alloc, raised, heap)?;
                Ok(Called::Raised(kind, text))
            }
            Ending::Spent => Ok(Called::Cut),
            Ending::Stuck => unreachable!(),
        }
    }
}
