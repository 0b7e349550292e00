// `range`.

ghost use Rattle.std.specs.Prelude.{◌≡◌, ◌+ℤ◌, ◌*ℤ◌, pos, IfOk, OnErr, MatchOption, false};
ghost use Rattle.py_value.specs.View.{plains, plain_outcome};
ghost use Rattle.py_value.specs.HeapView.{plain_heap};
ghost use Rattle.py_value.specs.Sequences.{most_items};
ghost use Rattle.py_builtins.specs.Builtins.{is_before, is_too_long, numbers_before, range_between, bounds_of, range_of};

use crate::raising::raise;
use crate::text_methods::new_list;
use py_value::{Cause, Heap, MOST_ITEMS, NoMemory, Raised, Value};
use std::alloc::Global;

/// `range(n)`, `range(a, b)`, `range(a, b, s)`.
pub(crate) fn range(
    alloc: Global,
    args: &[Value],
    heap: &mut Heap,
) -> Result<Result<Value, Raised>, NoMemory>
    ensures answer { IfOk result (λ answer.
        plain_outcome answer (plain_heap heap.new)
        ≡ range_of (plains args.now) (plain_heap heap.old)) }
    ensures raised { IfOk result (λ answer.
        OnErr answer (plain_heap heap.new ≡ plain_heap heap.old)) }
    ensures err { OnErr result (plain_heap heap.new ≡ plain_heap heap.old) }
{
    match bounds_of(args) {
        Some((from, to, step)) => range_between(alloc, from, to, step, heap),
        None => raise(alloc, Cause::WrongArgumentCount),
    }
}

/// Where the numbers begin and end, and their step.
fn bounds_of(args: &[Value]) -> Option<(Option<i64>, Option<i64>, Option<i64>)>
    ensures { result ≡ bounds_of (plains args.now) }
{
    match args.len() {
        1 => Some((Some(0), args[0].number(), Some(1))),
        2 => Some((args[0].number(), args[1].number(), Some(1))),
        3 => Some((args[0].number(), args[1].number(), args[2].number())),
        // Any other number of arguments is refused, so none passes unseen.
        _ => None,
    }
}

fn range_between(
    alloc: Global,
    from: Option<i64>,
    to: Option<i64>,
    step: Option<i64>,
    heap: &mut Heap,
) -> Result<Result<Value, Raised>, NoMemory>
    ensures answer { IfOk result (λ answer.
        plain_outcome answer (plain_heap heap.new)
        ≡ range_between from to step (plain_heap heap.old)) }
    ensures raised { IfOk result (λ answer.
        OnErr answer (plain_heap heap.new ≡ plain_heap heap.old)) }
    ensures err { OnErr result (plain_heap heap.new ≡ plain_heap heap.old) }
{
    let (Some(from), Some(to), Some(step)) = (from, to, step) else {
        return raise(alloc, Cause::BadArgument);
    };
    if step == 0 {
        return raise(alloc, Cause::ZeroStep);
    }
    if is_too_long(step, from, to) {
        return raise(alloc, Cause::TooManyItems);
    }
    let numbers = numbers_before(alloc, MOST_ITEMS, to, step, from)?;
    new_list(alloc, numbers, heap)
}

/// Whether the numbers from one on are more than a list holds.
fn is_too_long(step: i64, from: i64, to: i64) -> bool
    ensures { result ≡ is_too_long step from to }
{
    let after = number_after(step, from);
    if step >= 0 {
        after < i128::from(to)
    } else {
        i128::from(to) < after
    }
}

/// The number that stands after as many as a list holds.
fn number_after(step: i64, from: i64) -> i128
    ensures { result ≡ from +ℤ step *ℤ pos most_items }
{
    let steps = i128::from(step) * MOST_ITEMS as i128;
    i128::from(from) + steps
}

/// The numbers from one on that stand before a bound, by steps; at most so many.
fn numbers_before(
    alloc: Global,
    most: usize,
    bound: i64,
    step: i64,
    from: i64,
) -> Result<Vec<Value>, NoMemory>
    ensures { IfOk result (λ numbers.
        plains numbers.items ≡ numbers_before most bound step from) }
{
    let mut numbers = Vec::new(alloc);
    let mut n = from;
    for _turn in 0..most {
        if !is_before(step, n, bound) {
            return Ok(numbers);
        }
        numbers.push(Value::Int(n))?;
        match next_number(n, step, bound) {
            Some(next) => n = next,
            None => return Ok(numbers),
        }
    }
    Ok(numbers)
}

/// The next number; none where 64 bits don't hold it, since it stands after the bound then.
fn next_number(n: i64, step: i64, bound: i64) -> Option<i64>
    ensures { MatchOption result (is_before step (n +ℤ step) bound ≡ false)
        (λ next. next ≡ n +ℤ step) }
{
    n.checked_add(step)
}

/// Whether a number stands before a bound, in the direction of the step.
fn is_before(step: i64, n: i64, bound: i64) -> bool
    ensures { result ≡ is_before step n bound }
{
    if step >= 0 { n < bound } else { bound < n }
}
