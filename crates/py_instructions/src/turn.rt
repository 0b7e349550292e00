// What is left to do of an instruction.
use cov_event::Event;
use py_value::{Builtin, NoMemory, Raised, Value};

/// What the machine asks for when it has done its part of an instruction.
#[derive(Drop)]
pub enum Turn {
    Goes,
    /// A step was taken.
    Steps,
    /// A step was taken, and an event is told.
    Tells(Event),
    Throws(Raised),
    /// An exception is on its way, with whether it was thrown in the frame.
    Escapes(Raised, bool),
    Gives(Value),
    /// A built-in function is called.
    Asks(Builtin, Vec<Value>),
    /// No step is left.
    Spent,
    /// The instruction missed something.
    Stuck,
}

/// What is left to do, where there was memory for the machine's part.
pub type Acted = Result<Turn, NoMemory>;
