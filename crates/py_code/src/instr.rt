// The instructions.
use py_operator::{BinOp, CmpOp};

/// What a comparison of two operands asks.
#[derive(Clone, Copy)]
pub enum Question {
    Eq,
    Ne,
    Lt,
    Le,
    Gt,
    Ge,
    In,
    NotIn,
    /// Whether the left operand is the right one: None, True or False.
    Is,
    IsNot,
}

/// Which bounds of a slice stand on the operands.
#[derive(Clone, Copy)]
pub enum Bounds {
    Neither,
    From,
    To,
    Both,
}

/// An instruction. A `u32` is a number in a list of its unit, a number of operands, or a place in
/// the unit to go to, as each variant says. Operands are named from the lowest to the top one.
#[derive(Clone, Copy)]
pub enum Instr {
    // Operands.
    /// Puts a constant on top.
    Constant(u32),
    /// Takes the top operand away.
    Pop,
    /// Puts the operand that stands so many below the top one on top, too.
    Copy(u32),
    /// Moves the top operand below so many others.
    Sink(u32),
    /// Moves the operand that stands so many below the top one to the top.
    Roll(u32),
    // Names.
    LoadLocal(u32),
    StoreLocal(u32),
    UnsetLocal(u32),
    /// Puts the value of a global, or else of a predefined name, on top.
    LoadGlobal(u32),
    StoreGlobal(u32),
    UnsetGlobal(u32),
    // Values.
    /// The text of the top operand in place of it.
    Text,
    /// A text with another after it, in place of both.
    Extend,
    /// A tuple of so many operands.
    Tuple(u32),
    /// A list of so many operands.
    List(u32),
    /// An empty dict.
    Dict,
    /// A key and a value into the dict below them, which stays.
    AddPair,
    Not,
    Binary(BinOp),
    InPlace(BinOp),
    Compare(Question),
    Index,
    Slice(Bounds),
    /// The name after a dot, of the top operand.
    Attribute(u32),
    /// `object[index] = value`, of value, object and index.
    StoreIndex,
    /// Exactly so many items of the top operand, the first on top.
    Unpack(u32),
    // Jumps.
    Goto(u32),
    /// Takes the top operand away, and goes to a place if it is false.
    IfFalse(u32),
    IfTrue(u32),
    /// Goes to a place if the top operand is false, and takes it away otherwise.
    And(u32),
    Or(u32),
    /// Compares. Goes on with the right operand if that holds, and with False to a place otherwise.
    Link(Question, u32),
    /// Takes the top operand away, and if it is false so many more, and goes to a place.
    Unless(u32, u32),
    /// The items of a list or tuple of so many, the first on top. Of other operands takes the top
    /// one and so many more away, and goes to a place.
    Sequence(u32, u32, u32),
    // Lines, by their number in the line table.
    /// A line begins, unless it is the current one. Takes a step.
    Mark(u32),
    /// A line begins again. Takes a step.
    Again(u32),
    // Loops.
    /// Begins the walk over the items of the top operand.
    Walk,
    /// Puts the next item on top, or ends the walk and goes to a place.
    Next(u32),
    // Calls.
    /// The method of the top operand by its name, or the value of that name where the operand is a
    /// module.
    Method(u32),
    /// Calls the operand below so many values.
    Call(u32),
    /// Ends the frame with the top operand.
    Return,
    /// A function of this module by its unit.
    Function(u32),
    /// A function whose defaults stand in the list on top.
    FunctionWith(u32),
    /// Runs the body of a module that isn't begun. A value stands on top after it, which means
    /// nothing.
    Import(u32),
    /// The module of a name.
    Module(u32),
    /// A name of the module on top, which stays. The first number is that of the module's name.
    Take(u32, u32),
    // Exceptions.
    /// Raises the top operand.
    Raise,
    /// Raises the exception of the way out that stands so many below the top one.
    Reraise(u32),
    /// Raises an `AssertionError`, without argument or with the top operand.
    Assertion,
    AssertionWith,
    /// Whether the top operand catches the exception of the way out below it.
    Catches,
    /// Puts the exception of the way out on top there, too.
    Caught,
    /// Throws the exception of the way out on top once more.
    Uncaught,
    // Ways out of suites.
    /// Takes so many operands away, and goes to a place.
    Leave(u32, u32),
    /// Puts a way out on top: going on.
    Ending,
    /// Takes so many operands away, puts a way out on top, and goes to a place: by `break`, by
    /// `continue`.
    Breaking(u32, u32),
    Continuing(u32, u32),
    /// By `return` with the top operand, and takes so many more away.
    Returning(u32, u32),
    /// Goes on in the way out on top: one place ahead for `break`, two for `continue`, three for
    /// `return`, whose value stands on top then, and four where nothing is left. An exception that
    /// was thrown is thrown once more.
    Settle,
    /// The same, but for an exception, which is raised as it is.
    Release,
}
