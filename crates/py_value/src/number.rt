// Arithmetic of whole numbers of 64 bits.

ghost use Rattle.std.specs.Prelude.{◌≡◌, ◌≢◌, pos};
ghost use Rattle.py_value.specs.View.{plain};
ghost use Rattle.py_value.specs.Numbers.{number_of, arithmetic, exact, floor_div, floor_mod};

use crate::cause::Cause;
use crate::value::Value;
use py_operator::BinOp;

impl Value {
    /// The whole number that the value counts as: a bool is 0 or 1.
    pub fn number(&self) -> Option<i64>
        ensures { result ≡ number_of (plain self.now) }
    {
        match self {
            Value::Bool(true) => Some(1),
            Value::Bool(false) => Some(0),
            Value::Int(n) => Some(*n),
            Value::None
            | Value::Str(_)
            | Value::Tuple(_)
            | Value::List(_)
            | Value::Dict(_)
            | Value::Func(_, _)
            | Value::Module(_)
            | Value::Kind(_)
            | Value::Exc(_, _)
            | Value::Builtin(_) => None,
        }
    }
}

/// The exact value, or why there is none.
pub fn calculate(op: BinOp, left: i64, right: i64) -> Result<i64, Cause>
    ensures { result ≡ arithmetic op left right }
{
    match op {
        BinOp::Add => left.checked_add(right).ok_or(Cause::IntegerTooLarge),
        BinOp::Sub => left.checked_sub(right).ok_or(Cause::IntegerTooLarge),
        BinOp::Mul => left.checked_mul(right).ok_or(Cause::IntegerTooLarge),
        BinOp::Floor => {
            if right == 0 {
                Err(Cause::DivisionByZero)
            } else {
                floor_div(left, right)
            }
        }
        BinOp::Mod => {
            if right == 0 {
                Err(Cause::DivisionByZero)
            } else {
                Ok(floor_mod(left, right))
            }
        }
    }
}

fn floor_div(left: i64, right: i64) -> Result<i64, Cause>
    requires { right ≢ pos 0 }
    ensures { result ≡ exact (floor_div left right) }
{
    let dividend = left.unsigned_abs();
    let divisor = right.unsigned_abs();
    if (left < 0) == (right < 0) {
        let quotient = dividend / divisor;
        if quotient <= i64::MAX as u64 {
            Ok(quotient as i64)
        } else {
            Err(Cause::IntegerTooLarge)
        }
    } else if dividend == 0 {
        Ok(0)
    } else {
        Ok(-1 - ((dividend - 1) / divisor) as i64)
    }
}

fn floor_mod(left: i64, right: i64) -> i64
    requires { right ≢ pos 0 }
    ensures { result ≡ floor_mod left right }
{
    let dividend = left.unsigned_abs();
    let divisor = right.unsigned_abs();
    let rest = if (left < 0) == (right < 0) || dividend == 0 {
        dividend % divisor
    } else {
        divisor - 1 - (dividend - 1) % divisor
    };
    if right < 0 {
        -(rest as i64)
    } else {
        rest as i64
    }
}
