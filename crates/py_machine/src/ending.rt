// How a run ends, as the machine has it.
use py_value::{Raised, Value};

/// The outermost frame gave a value, or an exception left it; no step was left; or an instruction
/// missed something.
#[derive(Drop)]
pub enum Ending {
    Gave(Value),
    Failed(Raised),
    Spent,
    Stuck,
}
