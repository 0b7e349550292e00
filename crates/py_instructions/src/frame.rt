// Frames, and what the machine holds.
use crate::operand::Operand;
use crate::slots::Slots;
use crate::stack::Stack;
use cov_event::CodeId;
use py_value::Value;

/// A frame: its code, the place of its instruction, its operands, its slots, the line that is kept,
/// and how many frames stand on each other up to this one.
#[derive(Drop)]
pub struct Frame {
    pub code: CodeId,
    pub place: usize,
    pub operands: Stack<Operand>,
    pub slots: Slots,
    pub line: u32,
    pub depth: u32,
}

/// The frame that runs, those that wait for it, and the steps that are left. `spare` is a list that
/// is kept for its room: methods and built-in functions get their values in it.
#[derive(Drop)]
pub struct State {
    pub top: Frame,
    pub callers: Stack<Frame>,
    pub steps: u64,
    pub spare: Vec<Value>,
}
