//! Instructions over a machine in memory: what the machine holds, and what each instruction does to
//! it, as far as the machine does it alone.
//!
//! `State::decide` does the instruction at the present place, and answers a `Turn`, which is what
//! is left to do of it. `State::next_turn` does some at once before it.
#![tactic(auto)]

mod ahead;
mod at_once;
mod calls;
mod carried;
mod catching;
mod comparing;
mod constants;
mod decide;
mod displays;
mod frame;
mod going;
mod imports;
mod jumps;
mod lending;
mod loops;
mod making;
mod marks;
mod names;
mod numbered;
mod operand;
mod operands;
mod operators;
mod raising;
mod reach;
mod slots;
mod stack;
mod turn;
mod ways;

pub use calls::new_frame;
pub use frame::{Frame, State};
pub use lending::emptied;
pub use operand::{Operand, Walk, Way};
pub use reach::Reach;
pub use slots::Slots;
pub use stack::Stack;
pub use turn::{Acted, Turn};
