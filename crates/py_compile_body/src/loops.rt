// Emission of loops up to their `else`. The suite comes first among the trees, since it is what the
// recursion goes down.

ghost use Rattle.std.specs.Prelude.{◌≡◌, ◌+◌, ◌++◌, IfOk, OnOk};
ghost use Rattle.py_syntax.specs.View.{plain_expr, plain_suite, plain_opt_suite};
ghost use Rattle.py_compile.specs.Ways.{in_hand};
ghost use Rattle.py_compile_body.specs.Parts.{while_back, for_back, while_code, for_code, at_lines};
ghost use Rattle.py_compile_body.specs.WaysView.{plain_ways};

use crate::defs::Defs;
use crate::heads::{put_for_head, put_while_head};
use crate::places::{for_places, while_places};
use crate::statements::put_suite;
use crate::ways::Ways;
use py_code::Instr;
use py_compile_expr::{Builder, Op, put_target};
use py_syntax::{Expr, Suite};
use py_text::NoMemory;

/// `while`, up to its `else`.
#[cycle(statements)]
pub(crate) fn put_while(
    out: &mut Builder,
    defs: &Defs,
    ways: Ways,
    at: u32,
    line: u32,
    body: &Suite,
    test: &Expr,
    orelse: &Option<Suite>,
) -> Result<u32, NoMemory>
    ensures cells { OnOk result (out.new
        ≡ out.old ++ while_code (at_lines defs.now) (plain_ways ways) at line
        (plain_expr test.now) (plain_suite body.now) (plain_opt_suite orelse.now)) }
    ensures place { IfOk result (λ n.
        n ≡ while_back (in_hand (plain_ways ways)) at (plain_expr test.now)
        (plain_suite body.now) + 1) }
{
    let places = while_places(ways, at, test, body, orelse)?;
    let begin = put_while_head(out, ways.guard, at, line, test, places.rest)?;
    let back = put_suite(out, defs, places.inside, begin, body)?;
    out.put(ways.guard, back, Op::Plain(Instr::Goto(places.again)))
}

/// `for`, up to its `else`.
#[cycle(statements)]
pub(crate) fn put_for(
    out: &mut Builder,
    defs: &Defs,
    ways: Ways,
    at: u32,
    line: u32,
    body: &Suite,
    target: &Expr,
    over: &Expr,
    orelse: &Option<Suite>,
) -> Result<u32, NoMemory>
    ensures cells { OnOk result (out.new
        ≡ out.old ++ for_code (at_lines defs.now) (plain_ways ways) at line
        (plain_expr target.now) (plain_expr over.now) (plain_suite body.now)
        (plain_opt_suite orelse.now)) }
    ensures place { IfOk result (λ n.
        n ≡ for_back (in_hand (plain_ways ways)) at (plain_expr target.now) (plain_expr over.now)
        (plain_suite body.now) + 1) }
{
    let places = for_places(ways, at, over, target, body, orelse)?;
    let taken = put_for_head(out, ways.guard, at, line, over, places.rest)?;
    let begin = put_target(out, ways.guard, taken, target)?;
    let back = put_suite(out, defs, places.inside, begin, body)?;
    out.put(ways.guard, back, Op::Plain(Instr::Goto(places.again)))
}
