// Codes that are written down by their instructions.
ghost use Rattle.std.specs.Prelude.{length, map, IsTrue};
ghost use Rattle.py_code.specs.Units.{plain_unit};
ghost use Rattle.py_run_tests.specs.Checked.{HasDepths, AllHaveDepths};

use crate::checked::is_valid;
use py_code::{Code, Constant, Handler, Instr, MOST_UNITS, Program, Programs, Unit};
use py_value::Text;
use std::alloc::Global;
use std::test::Fail;

/// A constant, as a table has it.
pub(crate) enum Literal {
    None,
    Int(i64),
    Str(&'static str),
}

/// A unit, with the number of operands at each of its places.
pub(crate) struct Written {
    pub(crate) name: &'static str,
    pub(crate) first: u32,
    pub(crate) params: &'static [&'static str],
    pub(crate) defaults: u32,
    pub(crate) locals: &'static [&'static str],
    pub(crate) names: &'static [&'static str],
    pub(crate) constants: &'static [Literal],
    pub(crate) lines: &'static [u32],
    pub(crate) handlers: &'static [Handler],
    pub(crate) instrs: &'static [Instr],
    pub(crate) depths: &'static [usize],
}

fn texts_of(alloc: Global, words: &[&'static str]) -> Result<Vec<Text>, Fail> {
    let mut texts = Vec::with_capacity(alloc, words.len())?;
    for word in words {
        texts.push(Text::from_str(alloc, word)?)?;
    }
    Ok(texts)
}

fn constant_of(alloc: Global, literal: &Literal) -> Result<Constant, Fail> {
    match literal {
        Literal::None => Ok(Constant::None),
        Literal::Int(n) => Ok(Constant::Int(*n)),
        Literal::Str(text) => Ok(Constant::Str(Text::from_str(alloc, text)?)),
    }
}

fn constants_of(alloc: Global, literals: &[Literal]) -> Result<Vec<Constant>, Fail> {
    let mut constants = Vec::with_capacity(alloc, literals.len())?;
    for literal in literals {
        constants.push(constant_of(alloc, literal)?)?;
    }
    Ok(constants)
}

fn unit_of(alloc: Global, written: &Written) -> Result<Unit, Fail> {
    let constants = constants_of(alloc, written.constants)?;
    Ok(Unit {
        name: Text::from_str(alloc, written.name)?,
        first: written.first,
        params: texts_of(alloc, written.params)?,
        defaults: written.defaults,
        locals: texts_of(alloc, written.locals)?,
        names: texts_of(alloc, written.names)?,
        constants,
        instrs: Vec::from_slice(alloc, written.instrs)?,
        lines: Vec::from_slice(alloc, written.lines)?,
        handlers: Vec::from_slice(alloc, written.handlers)?,
    })
}

fn has_depths(units: &[Unit], written: &[Written], number: usize) -> bool
    ensures { IsTrue result → HasDepths (map plain_unit units.now) number }
{
    match units.get(number) {
        None => false,
        Some(unit) => match written.get(number) {
            None => false,
            Some(row) => is_valid(unit, units.len(), row.depths),
        },
    }
}

fn all_have_depths(units: &[Unit], written: &[Written]) -> bool
    ensures { IsTrue result → AllHaveDepths (map plain_unit units.now) (length units.now) }
{
    let mut number = 0;
    while number < units.len() {
        if !has_depths(units, written, number) {
            return false;
        }
        number += 1;
    }
    true
}

/// Why the units that are written down are no code.
fn no_code(why: &'static str) -> Fail {
    Fail::new(why)
}

/// The code of these units, where they are one.
fn code_of(alloc: Global, written: &[Written]) -> Result<Code, Fail> {
    let mut units = Vec::with_capacity(alloc, written.len())?;
    for row in written {
        units.push(unit_of(alloc, row)?)?;
    }
    let count = units.len();
    if count == 0 {
        return Err(no_code("no unit is written down"));
    }
    if count > MOST_UNITS {
        return Err(no_code("too many units are written down"));
    }
    if !all_have_depths(&units, written) {
        return Err(no_code("what is written down is no code"));
    }
    Ok(Code::new(units))
}

/// The script of these units.
pub(crate) fn programs_by(alloc: Global, written: &[Written]) -> Result<Programs, Fail> {
    let code = code_of(alloc, written)?;
    let name = String::from_str(alloc, "__main__")?;
    let path = String::from_str(alloc, "s.py")?;
    let mut modules = Vec::new(alloc);
    modules.push(Program { name, path, code })?;
    Ok(Programs { modules })
}
