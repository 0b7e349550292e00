// The cells of bodies.

ghost use Rattle.std.specs.Prelude.{◌≡◌, List, IfOk};
ghost use Rattle.py_syntax.specs.Functions.{Function, without_docstring};
ghost use Rattle.py_syntax.specs.View.{plain_stmts};
ghost use Rattle.py_compile.specs.Units.{body_cells};
ghost use Rattle.py_compile_body.specs.Parts.{at_lines, lines_of};

use crate::defs::Defs;
use crate::statements::put_stmts;
use crate::suite_sizes::stmts_size;
use crate::ways::outermost;
use py_code::{Constant, Instr};
use py_compile_expr::{Builder, Op};
use py_docstrings::without_docstring;
use py_syntax::Stmt;
use py_text::NoMemory;
use std::alloc::Global;

/// The cells of the body of a module or a function, without the docstring that may lead it, where
/// the module's functions begin on the lines of these `def`s.
pub fn body_cells(alloc: Global, defs: &Defs, items: &[Stmt]) -> Result<Builder, NoMemory>
    ensures { IfOk result (λ b. (fs : List Function) → lines_of fs ≡ defs.now
        → b ≡ body_cells fs (without_docstring (plain_stmts items.now))) }
{
    cells_of(alloc, defs, without_docstring(items))
}

/// The cells of statements that are a whole body, which gives None at its end.
fn cells_of(alloc: Global, defs: &Defs, items: &[Stmt]) -> Result<Builder, NoMemory>
    ensures { IfOk result (λ b. b ≡ body_cells (at_lines defs.now) (plain_stmts items.now)) }
{
    let end = stmts_size(false, items)?;
    let mut out = Builder::new(alloc);
    let at = put_stmts(&mut out, defs, outermost(end), 0, items)?;
    let at = out.put(None, at, Op::Constant(Constant::None))?;
    out.put(None, at, Op::Plain(Instr::Return))?;
    Ok(out)
}
