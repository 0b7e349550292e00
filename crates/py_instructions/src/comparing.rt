// What comparisons ask.
ghost use Rattle.std.specs.Prelude.{◌≡◌, IfOk};
ghost use Rattle.py_value.specs.Compared.{is_answer, compared};
ghost use Rattle.py_value.specs.HeapView.{plain_heap};
ghost use Rattle.py_value.specs.View.{plain, plain_answer};
ghost use Rattle.py_code.specs.Operands.{asked};

use py_code::Question;
use py_value::{Cause, CmpOp, Heap, NoMemory, Raised, Value, compare};
use std::alloc::Global;

/// What a comparison of two values answers.
pub fn compared(
    alloc: Global,
    question: Question,
    left: &Value,
    right: &Value,
    heap: &Heap,
) -> Result<Result<bool, Raised>, NoMemory>
    ensures { IfOk result (λ answer.
        plain_answer answer
        ≡ compared (asked question) (plain left.now) (plain right.now) (plain_heap heap.now)) }
{
    match question {
        Question::Eq => compare(alloc, CmpOp::Eq, left, right, heap),
        Question::Ne => compare(alloc, CmpOp::Ne, left, right, heap),
        Question::Lt => compare(alloc, CmpOp::Lt, left, right, heap),
        Question::Le => compare(alloc, CmpOp::Le, left, right, heap),
        Question::Gt => compare(alloc, CmpOp::Gt, left, right, heap),
        Question::Ge => compare(alloc, CmpOp::Ge, left, right, heap),
        Question::In => compare(alloc, CmpOp::In, left, right, heap),
        Question::NotIn => compare(alloc, CmpOp::NotIn, left, right, heap),
        Question::Is => is_it(alloc, left, right),
        Question::IsNot => match is_it(alloc, left, right)? {
            Ok(holds) => Ok(Ok(!holds)),
            Err(raised) => Ok(Err(raised)),
        },
    }
}

/// Whether the left value is the right one, which is None, True or False.
fn is_it(alloc: Global, left: &Value, right: &Value) -> Result<Result<bool, Raised>, NoMemory>
    ensures { IfOk result (λ answer.
        plain_answer answer ≡ is_answer (plain left.now) (plain right.now)) }
{
    match right {
        Value::None => Ok(Ok(left.is_none())),
        Value::Bool(b) => Ok(Ok(left.is_bool(*b))),
        _ => Ok(Err(Raised::of(alloc, Cause::UnsupportedOperand)?)),
    }
}
