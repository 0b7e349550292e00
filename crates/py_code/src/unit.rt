// Units of code.
use crate::instr::Instr;
use py_text::Text;

/// A constant.
#[derive(Drop)]
pub enum Constant {
    None,
    Bool(bool),
    Int(i64),
    Str(Text),
}

/// A range of places with the place where an exception in it goes on. The operands are cut to the
/// depth, and the exception is put on top.
#[derive(Clone, Copy)]
pub struct Handler {
    /// The first place of the range, from 0.
    pub from: u32,
    /// The place after the range.
    pub to: u32,
    pub target: u32,
    pub depth: u32,
}

/// The code of a module's body, or of a function.
#[derive(Drop)]
pub struct Unit {
    /// The name of the function; empty for the body of a module.
    pub name: Text,
    /// The first line, from 1.
    pub first: u32,
    pub params: Vec<Text>,
    /// How many of the last parameters have defaults.
    pub defaults: u32,
    /// The names of the local slots, the parameters first; none in the body of a module.
    pub locals: Vec<Text>,
    /// Names of globals, attributes and modules.
    pub names: Vec<Text>,
    pub constants: Vec<Constant>,
    pub instrs: Vec<Instr>,
    /// The line table: the lines that instructions mark, from 1.
    pub lines: Vec<u32>,
    /// The handler table. Of two equal ranges the earlier entry is the inner one.
    pub handlers: Vec<Handler>,
}
