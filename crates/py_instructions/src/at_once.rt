// Instructions that are done at once: constants, names, stores of local names, operators and
// comparisons of whole numbers, jumps, and values that are taken from the top. Each may do nothing,
// and no clause says when.
ghost use Rattle.std.specs.Prelude.{◌≡◌, ◌<◌, IfSome, Ok};
ghost use Rattle.py_code.specs.declared.instr.Instr.TheVariants.{Constant as Const, Pop, LoadLocal, StoreLocal, LoadGlobal, Binary, InPlace, Compare, Goto, IfFalse, IfTrue};
ghost use Rattle.py_code.specs.Operands.{asked};
ghost use Rattle.py_value.specs.Compared.{compared};
ghost use Rattle.py_value.specs.Numbers.{arithmetic};
ghost use Rattle.py_value.specs.Plain.{PlainHeap, int_value};
ghost use Rattle.py_value.specs.View.{plain};
ghost use Rattle.py_instructions.specs.AtOnce.{PushedAtOnce, DoneAtOnce, WentOn};

use crate::frame::State;
use crate::numbered::numbered;
use crate::operand::Operand;
use py_code::{Constant, Instr, Question, Unit};
use py_value::{BinOp, Value, calculate};
use py_world::Store;

/// A copy of a value, if it is None, a bool or a whole number.
fn small(value: &Value) -> Option<Value>
    ensures { IfSome result (λ copy. plain copy ≡ plain value.now) }
{
    match value {
        Value::None => Some(Value::None),
        Value::Bool(holds) => Some(Value::Bool(*holds)),
        Value::Int(n) => Some(Value::Int(*n)),
        Value::Str(_)
        | Value::Tuple(_)
        | Value::List(_)
        | Value::Dict(_)
        | Value::Func(_, _)
        | Value::Module(_)
        | Value::Kind(_)
        | Value::Exc(_, _)
        | Value::Builtin(_) => None,
    }
}

/// What an operator gives of two whole numbers, where it gives one.
pub(crate) fn calculated(op: BinOp, left: i64, right: i64) -> Option<i64>
    ensures { IfSome result (λ n. arithmetic op left right ≡ Ok n) }
{
    match calculate(op, left, right) {
        Err(_) => None,
        Ok(n) => Some(n),
    }
}

/// What a comparison of two whole numbers by their order answers.
pub(crate) fn tested(question: Question, left: i64, right: i64) -> Option<bool>
    ensures { IfSome result (λ holds. (h : PlainHeap)
        → compared (asked question) (int_value left) (int_value right) h ≡ Ok holds) }
{
    let order = left.cmp(&right);
    match question {
        Question::Eq => Some(left == right),
        Question::Ne => Some(left != right),
        Question::Lt => Some(order.is_lt()),
        Question::Le => Some(!order.is_gt()),
        Question::Gt => Some(order.is_gt()),
        Question::Ge => Some(!order.is_lt()),
        Question::In | Question::NotIn | Question::Is | Question::IsNot => None,
    }
}

impl State {
    /// Does an instruction at once and goes on, or does nothing. It says which.
    pub(crate) fn do_at_once(&mut self, instr: Instr, unit: &Unit, store: &Store) -> bool
        requires { self.old.top.place < usize.MAX }
        ensures { DoneAtOnce result unit.now instr self.old store.now self.new }
    {
        match instr {
            Instr::Constant(n) => self.constant_at_once(unit, n, store),
            Instr::Pop => self.pop_at_once(unit, store),
            Instr::LoadLocal(n) => self.local_at_once(unit, n, store),
            Instr::StoreLocal(n) => self.store_local_at_once(unit, n, store),
            Instr::LoadGlobal(n) => self.global_at_once(unit, n, store),
            Instr::Binary(op) => self.binary_at_once(unit, op, store),
            Instr::InPlace(op) => self.in_place_at_once(unit, op, store),
            Instr::Compare(question) => self.compare_at_once(unit, question, store),
            Instr::Goto(to) => self.goto_at_once(unit, to, store),
            Instr::IfFalse(to) => self.if_false_at_once(unit, to, store),
            Instr::IfTrue(to) => self.if_true_at_once(unit, to, store),
            Instr::Copy(_)
            | Instr::Sink(_)
            | Instr::Roll(_)
            | Instr::UnsetLocal(_)
            | Instr::StoreGlobal(_)
            | Instr::UnsetGlobal(_)
            | Instr::Text
            | Instr::Extend
            | Instr::Tuple(_)
            | Instr::List(_)
            | Instr::Dict
            | Instr::AddPair
            | Instr::Not
            | Instr::Index
            | Instr::Slice(_)
            | Instr::Attribute(_)
            | Instr::StoreIndex
            | Instr::Unpack(_)
            | Instr::And(_)
            | Instr::Or(_)
            | Instr::Link(_, _)
            | Instr::Unless(_, _)
            | Instr::Sequence(_, _, _)
            | Instr::Mark(_)
            | Instr::Again(_)
            | Instr::Walk
            | Instr::Next(_)
            | Instr::Method(_)
            | Instr::Call(_)
            | Instr::Return
            | Instr::Function(_)
            | Instr::FunctionWith(_)
            | Instr::Import(_)
            | Instr::Module(_)
            | Instr::Take(_, _)
            | Instr::Raise
            | Instr::Reraise(_)
            | Instr::Assertion
            | Instr::AssertionWith
            | Instr::Catches
            | Instr::Caught
            | Instr::Uncaught
            | Instr::Leave(_, _)
            | Instr::Ending
            | Instr::Breaking(_, _)
            | Instr::Continuing(_, _)
            | Instr::Returning(_, _)
            | Instr::Settle
            | Instr::Release => false,
        }
    }

    /// Puts a value on top and goes on, or does nothing, where no memory is left for it.
    fn push_at_once(&mut self, value: Value) -> bool
        requires { self.old.top.place < usize.MAX }
        ensures { PushedAtOnce result (plain value) self.old self.new }
    {
        if self.top.operands.push(Operand::Value(value)).is_err() {
            return false;
        }
        self.top.place += 1;
        true
    }

    fn constant_at_once(&mut self, unit: &Unit, n: u32, store: &Store) -> bool
        requires { self.old.top.place < usize.MAX }
        ensures { DoneAtOnce result unit.now (Const n) self.old store.now self.new }
    {
        match numbered(&unit.constants, n) {
            None => false,
            Some(constant) => match constant {
                Constant::None => self.push_at_once(Value::None),
                Constant::Bool(holds) => self.push_at_once(Value::Bool(*holds)),
                Constant::Int(k) => self.push_at_once(Value::Int(*k)),
                Constant::Str(_) => false,
            },
        }
    }

    fn pop_at_once(&mut self, unit: &Unit, store: &Store) -> bool
        requires { self.old.top.place < usize.MAX }
        ensures { DoneAtOnce result unit.now Pop self.old store.now self.new }
    {
        let Some(x) = self.top.operands.pop() else {
            return false;
        };
        drop(x);
        self.top.place += 1;
        true
    }

    fn local_at_once(&mut self, unit: &Unit, n: u32, store: &Store) -> bool
        requires { self.old.top.place < usize.MAX }
        ensures { DoneAtOnce result unit.now (LoadLocal n) self.old store.now self.new }
    {
        let Some(_) = numbered(&unit.locals, n) else {
            return false;
        };
        let Some(value) = self.top.slots.look(n as usize) else {
            return false;
        };
        match small(value) {
            None => false,
            Some(copy) => self.push_at_once(copy),
        }
    }

    fn store_local_at_once(&mut self, unit: &Unit, n: u32, store: &Store) -> bool
        requires { self.old.top.place < usize.MAX }
        ensures { DoneAtOnce result unit.now (StoreLocal n) self.old store.now self.new }
    {
        let Some(_) = numbered(&unit.locals, n) else {
            return false;
        };
        let Some(x) = self.top.operands.pop() else {
            return false;
        };
        self.top.slots.set(n as usize, x.into_value());
        self.top.place += 1;
        true
    }

    fn global_at_once(&mut self, unit: &Unit, n: u32, store: &Store) -> bool
        requires { self.old.top.place < usize.MAX }
        ensures { DoneAtOnce result unit.now (LoadGlobal n) self.old store.now self.new }
    {
        let Some(name) = numbered(&unit.names, n) else {
            return false;
        };
        let Some(value) = store.global_at(self.top.code, n, name) else {
            return false;
        };
        match small(value) {
            None => false,
            Some(copy) => self.push_at_once(copy),
        }
    }

    fn binary_at_once(&mut self, unit: &Unit, op: BinOp, store: &Store) -> bool
        requires { self.old.top.place < usize.MAX }
        ensures { DoneAtOnce result unit.now (Binary op) self.old store.now self.new }
    {
        let Some(right) = self.top.operands.number(0) else {
            return false;
        };
        let Some(left) = self.top.operands.number(1) else {
            return false;
        };
        match calculated(op, left, right) {
            None => false,
            Some(n) => {
                self.top.operands.put_for_two(Value::Int(n));
                self.top.place += 1;
                true
            }
        }
    }

    fn in_place_at_once(&mut self, unit: &Unit, op: BinOp, store: &Store) -> bool
        requires { self.old.top.place < usize.MAX }
        ensures { DoneAtOnce result unit.now (InPlace op) self.old store.now self.new }
    {
        let Some(right) = self.top.operands.number(0) else {
            return false;
        };
        let Some(left) = self.top.operands.number(1) else {
            return false;
        };
        match calculated(op, left, right) {
            None => false,
            Some(n) => {
                self.top.operands.put_for_two(Value::Int(n));
                self.top.place += 1;
                true
            }
        }
    }

    fn compare_at_once(&mut self, unit: &Unit, question: Question, store: &Store) -> bool
        requires { self.old.top.place < usize.MAX }
        ensures { DoneAtOnce result unit.now (Compare question) self.old store.now self.new }
    {
        let Some(right) = self.top.operands.number(0) else {
            return false;
        };
        let Some(left) = self.top.operands.number(1) else {
            return false;
        };
        match tested(question, left, right) {
            None => false,
            Some(holds) => {
                self.top.operands.put_for_two(Value::Bool(holds));
                self.top.place += 1;
                true
            }
        }
    }

    fn goto_at_once(&mut self, unit: &Unit, to: u32, store: &Store) -> bool
        ensures { DoneAtOnce result unit.now (Goto to) self.old store.now self.new }
    {
        self.top.place = to as usize;
        true
    }

    fn if_false_at_once(&mut self, unit: &Unit, to: u32, store: &Store) -> bool
        requires { self.old.top.place < usize.MAX }
        ensures { DoneAtOnce result unit.now (IfFalse to) self.old store.now self.new }
    {
        let Some(holds) = self.top.operands.bool_on_top() else {
            return false;
        };
        self.go_at_once(!holds, to)
    }

    fn if_true_at_once(&mut self, unit: &Unit, to: u32, store: &Store) -> bool
        requires { self.old.top.place < usize.MAX }
        ensures { DoneAtOnce result unit.now (IfTrue to) self.old store.now self.new }
    {
        let Some(holds) = self.top.operands.bool_on_top() else {
            return false;
        };
        self.go_at_once(holds, to)
    }

    /// Takes the top operand away, and jumps or falls; or does nothing, where there is none.
    fn go_at_once(&mut self, jumps: bool, to: u32) -> bool
        requires { self.old.top.place < usize.MAX }
        ensures { WentOn result jumps to self.old self.new }
    {
        let Some(x) = self.top.operands.pop() else {
            return false;
        };
        drop(x);
        if jumps {
            self.top.place = to as usize;
        } else {
            self.top.place += 1;
        }
        true
    }
}
