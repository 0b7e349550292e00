// Emission of texts.

ghost use Rattle.std.specs.Prelude.{◌≡◌, ◌+◌, [], ◌++◌, IfOk, OnOk};
ghost use Rattle.py_meaning.specs.Literals.{run_together};
ghost use Rattle.py_code.specs.declared.unit.Constant.TheVariants.{Str as StrConstant};
ghost use Rattle.py_compile_expr.specs.Cells.{constant, put};
ghost use Rattle.py_compile_expr.specs.CellView.{plain_guard};
ghost use Rattle.py_compile_expr.specs.Pieces.{chars_code};

use crate::cells::{Builder, Guard, Op};
use py_code::{Constant, Instr};
use py_text::{NoMemory, Text};
use std::alloc::Global;

/// Neighbouring strings as one.
pub fn run_together(alloc: Global, pieces: &[Text]) -> Result<Text, NoMemory>
    ensures { IfOk result (λ t. t ≡ run_together pieces.now) }
{
    let mut all = Text::new(alloc);
    for piece in pieces {
        all.append(piece)?;
    }
    Ok(all)
}

/// Neighbouring strings as one constant.
pub(crate) fn put_string(
    out: &mut Builder,
    guard: Option<Guard>,
    at: u32,
    pieces: &[Text],
) -> Result<u32, NoMemory>
    ensures cells { OnOk result (out.new
        ≡ out.old
        ++ put (plain_guard guard) (constant (StrConstant (run_together pieces.now))) []) }
    ensures place { IfOk result (λ n. n ≡ at + 1) }
{
    let text = run_together(out.alloc(), pieces)?;
    out.put(guard, at, Op::Constant(Constant::Str(text)))
}

/// The empty text, which the pieces of an f-string are added to.
pub(crate) fn put_text(out: &mut Builder, guard: Option<Guard>, at: u32) -> Result<u32, NoMemory>
    ensures cells { OnOk result (out.new
        ≡ out.old ++ put (plain_guard guard) (constant (StrConstant [])) []) }
    ensures place { IfOk result (λ n. n ≡ at + 1) }
{
    let text = Text::new(out.alloc());
    out.put(guard, at, Op::Constant(Constant::Str(text)))
}

/// Characters after the text on top.
pub(crate) fn put_chars(
    out: &mut Builder,
    guard: Option<Guard>,
    at: u32,
    text: &Text,
) -> Result<u32, NoMemory>
    ensures cells { OnOk result (out.new ≡ out.old ++ chars_code (plain_guard guard) text.now) }
    ensures place { IfOk result (λ n. n ≡ at + 2) }
{
    let text = text.copy()?;
    let at = out.put(guard, at, Op::Constant(Constant::Str(text)))?;
    out.put(guard, at, Op::Plain(Instr::Extend))
}
