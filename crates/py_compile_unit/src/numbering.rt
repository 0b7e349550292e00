// Instructions by the lists of their unit.

ghost use Rattle.std.specs.Prelude.{◌≡◌, map, IfOk, OnOk};
ghost use Rattle.py_compile_expr.specs.Cells.{instr_of, with_global_name, tables_with, tables_of};
ghost use Rattle.py_compile_expr.specs.CellView.{plain_op, plain_cell};
ghost use Rattle.py_compile_unit.specs.Lists.{plain_lists, variable_of, instrs_of};

use crate::constants::Constants;
use crate::lines::Lines;
use crate::names::Names;
use py_code::Instr;
use py_compile_expr::{Cell, Op};
use py_text::{NoMemory, Text};
use std::alloc::Global;

/// The lists of a unit: its own names, and what its instructions name.
#[derive(Drop)]
pub(crate) struct Lists {
    pub own: Names,
    pub names: Names,
    pub constants: Constants,
    pub lines: Lines,
}

/// A name of a unit: its slot where it is the unit's own, and else its place among other names.
#[derive(Clone, Copy)]
pub(crate) enum Variable {
    Local(u32),
    Global(u32),
}

/// The instructions of cells, whose names, constants and lines are added to the lists.
pub(crate) fn numbered(
    alloc: Global,
    lists: &mut Lists,
    cells: &[Cell],
) -> Result<Vec<Instr>, NoMemory>
    ensures lists { OnOk result (plain_lists lists.new
        ≡ tables_of (plain_lists lists.old) (map plain_cell cells.now)) }
    ensures instrs { IfOk result (λ v. v.items
        ≡ instrs_of (tables_of (plain_lists lists.old) (map plain_cell cells.now))
        (map plain_cell cells.now)) }
{
    let mut instrs = Vec::new(alloc);
    for cell in cells {
        let instr = numbered_one(lists, &cell.op)?;
        instrs.push(instr)?;
    }
    Ok(instrs)
}

/// The instruction of a cell, by the lists with what it names.
fn numbered_one(lists: &mut Lists, op: &Op) -> Result<Instr, NoMemory>
    ensures lists { OnOk result (plain_lists lists.new
        ≡ tables_with (plain_lists lists.old) (plain_op op.now)) }
    ensures instr { IfOk result (λ i. i
        ≡ instr_of (tables_with (plain_lists lists.old) (plain_op op.now)) (plain_op op.now)) }
{
    match op {
        Op::Constant(constant) => {
            let place = lists.constants.place(constant)?;
            Ok(Instr::Constant(place))
        }
        Op::Load(name) => match variable_of(lists, name)? {
            Variable::Local(place) => Ok(Instr::LoadLocal(place)),
            Variable::Global(place) => Ok(Instr::LoadGlobal(place)),
        },
        Op::Store(name) => match variable_of(lists, name)? {
            Variable::Local(place) => Ok(Instr::StoreLocal(place)),
            Variable::Global(place) => Ok(Instr::StoreGlobal(place)),
        },
        Op::Unset(name) => match variable_of(lists, name)? {
            Variable::Local(place) => Ok(Instr::UnsetLocal(place)),
            Variable::Global(place) => Ok(Instr::UnsetGlobal(place)),
        },
        Op::Attribute(name) => Ok(Instr::Attribute(lists.names.place(name)?)),
        Op::Method(name) => Ok(Instr::Method(lists.names.place(name)?)),
        Op::Import(name) => Ok(Instr::Import(lists.names.place(name)?)),
        Op::Module(name) => Ok(Instr::Module(lists.names.place(name)?)),
        Op::Take(of, name) => {
            let first = lists.names.place(of)?;
            let second = lists.names.place(name)?;
            Ok(Instr::Take(first, second))
        }
        Op::Mark(line) => Ok(Instr::Mark(lists.lines.place(*line)?)),
        Op::Again(line) => Ok(Instr::Again(lists.lines.place(*line)?)),
        Op::Plain(instr) => Ok(*instr),
    }
}

/// Where the value of a name is kept: in a slot, or under the name in its module. The lists have
/// the name from then on.
fn variable_of(lists: &mut Lists, name: &Text) -> Result<Variable, NoMemory>
    ensures lists { OnOk result (plain_lists lists.new
        ≡ with_global_name (plain_lists lists.old) name.now) }
    ensures variable { IfOk result (λ v. v
        ≡ variable_of (with_global_name (plain_lists lists.old) name.now) name.now) }
{
    if lists.own.contains(name) {
        let place = lists.own.place(name)?;
        Ok(Variable::Local(place))
    } else {
        let place = lists.names.place(name)?;
        Ok(Variable::Global(place))
    }
}
