// Whole numbers that instructions put on top one after another: they are compared, calculated with
// and stored before they stand on the operands. No clause says when that is done.
ghost use Rattle.std.specs.Prelude.{◌≡◌, ◌<◌, ◌≤◌, ◌+◌, ℕ, suc, List, [], ◌∷◌, length, Some, slice_get, IsTrue, IfSome};
ghost use Rattle.py_value.specs.Numbers.{arithmetic};
ghost use Rattle.py_value.specs.View.{plain};
ghost use Rattle.py_code.specs.declared.instr.Instr.TheVariants.{Constant as Const, LoadLocal, LoadGlobal, Compare};
ghost use Rattle.py_code.specs.Configurations.{Operand as PlainOperand, of_value};
ghost use Rattle.py_world.specs.declared.store.Store.{Store as Kept};
ghost use Rattle.py_instructions.specs.declared.frame.State.{State as Machine};
ghost use Rattle.py_instructions.specs.View.{Outside, plain_operands, seen};
ghost use Rattle.py_instructions.specs.Carried.{whole, truth, placed, PutsWhole, Leads, LeadsTo, GoneOn, IsStored, IsOperatorAt, KeepsCopy};

use crate::at_once::{calculated, tested};
use crate::frame::State;
use crate::numbered::numbered;
use crate::operand::{Operand, number_of};
use py_code::{Constant, Instr, Question, Unit};
use py_value::{BinOp, Value};
use py_world::Store;

/// The instruction at a place, if one is there.
fn instr_at(unit: &Unit, place: usize) -> Option<Instr>
    ensures { IfSome result (λ i. (place < length unit.now.instrs.items)
        × (slice_get unit.now.instrs.items place ≡ Some i)) }
{
    if place < unit.instrs.len() {
        Some(unit.instrs[place])
    } else {
        None
    }
}

/// The operator at a place, if one is there.
fn operator_at(unit: &Unit, place: usize) -> Option<BinOp>
    ensures { IfSome result (λ op. (place < length unit.now.instrs.items)
        × IsOperatorAt unit.now place op) }
{
    let Some(instr) = instr_at(unit, place) else {
        return None;
    };
    if let Instr::Binary(op) = instr {
        return Some(op);
    }
    if let Instr::InPlace(op) = instr {
        return Some(op);
    }
    None
}

/// The comparison at a place, if one is there.
fn question_at(unit: &Unit, place: usize) -> Option<Question>
    ensures { IfSome result (λ q. (place < length unit.now.instrs.items)
        × (slice_get unit.now.instrs.items place ≡ Some (Compare q))) }
{
    let Some(instr) = instr_at(unit, place) else {
        return None;
    };
    if let Instr::Compare(question) = instr {
        Some(question)
    } else {
        None
    }
}

/// Where the jump at a place leads with this bool on top, if a jump is there.
fn led_to(unit: &Unit, place: usize, holds: bool) -> Option<usize>
    ensures { IfSome result (λ to. (m : Machine) (s : Kept)
        → LeadsTo unit.now m s place (truth holds ∷ []) to []) }
{
    let Some(instr) = instr_at(unit, place) else {
        return None;
    };
    if let Instr::IfFalse(to) = instr {
        return Some(if holds { place + 1 } else { to as usize });
    }
    if let Instr::IfTrue(to) = instr {
        return Some(if holds { to as usize } else { place + 1 });
    }
    None
}

/// Whether what is on top at a place is copied there and taken away two places further.
fn is_copied(unit: &Unit, place: usize) -> bool
    requires { place < length unit.now.instrs.items }
    ensures { IsTrue result
        → KeepsCopy unit.now place × (place + 2 < length unit.now.instrs.items) }
{
    if unit.instrs.len() - place <= 2 {
        return false;
    }
    matches!(unit.instrs[place], Instr::Copy(0)) && matches!(unit.instrs[place + 2], Instr::Pop)
}

/// The whole number that a constant is.
fn constant_number(unit: &Unit, n: u32) -> Option<i64>
    ensures { IfSome result (λ k. (m : Machine) (s : Kept) → PutsWhole unit.now (Const n) m s k) }
{
    match numbered(&unit.constants, n) {
        None => None,
        Some(constant) => match constant {
            Constant::Int(k) => Some(*k),
            Constant::None | Constant::Bool(_) | Constant::Str(_) => None,
        },
    }
}

impl State {
    /// The whole number that the instruction at a place puts on top, if it puts one.
    pub(crate) fn number_at(&self, place: usize, unit: &Unit, store: &Store) -> Option<i64>
        ensures { IfSome result (λ n.
            LeadsTo unit.now self.now store.now place [] (suc place) (whole n ∷ [])) }
    {
        let Some(instr) = instr_at(unit, place) else {
            return None;
        };
        if let Instr::Constant(n) = instr {
            return constant_number(unit, n);
        }
        if let Instr::LoadLocal(n) = instr {
            return self.local_number(unit, n);
        }
        if let Instr::LoadGlobal(n) = instr {
            return self.global_number(unit, n, store);
        }
        None
    }

    fn local_number(&self, unit: &Unit, n: u32) -> Option<i64>
        ensures { IfSome result (λ k.
            (s : Kept) → PutsWhole unit.now (LoadLocal n) self.now s k) }
    {
        let Some(_) = numbered(&unit.locals, n) else {
            return None;
        };
        match self.top.slots.look(n as usize) {
            None => None,
            Some(value) => number_of(value),
        }
    }

    fn global_number(&self, unit: &Unit, n: u32, store: &Store) -> Option<i64>
        ensures { IfSome result (PutsWhole unit.now (LoadGlobal n) self.now store.now) }
    {
        let Some(name) = numbered(&unit.names, n) else {
            return None;
        };
        store.whole_at(self.top.code, n, name)
    }

    /// Goes on with a whole number on top that doesn't stand there yet, or does nothing.
    pub(crate) fn go_on_with(&mut self, first: i64, unit: &Unit, store: &mut Store) -> bool
        requires { self.old.top.place < length unit.now.instrs.items }
        ensures { GoneOn result unit.now (suc self.old.top.place) (whole first ∷ []) self.old
            store.old self.new store.new }
    {
        let mut number = first;
        let mut place = self.top.place + 1;
        while place < unit.instrs.len() {
            let Some(joined) = self.joined(number, place, unit, store) else {
                break;
            };
            number = joined;
            place += 2;
        }
        self.use_number(number, place, unit, store)
    }

    /// What a whole number and the one that is put on it give, where an operator follows.
    fn joined(&self, left: i64, place: usize, unit: &Unit, store: &Store) -> Option<i64>
        requires { place < length unit.now.instrs.items }
        ensures { IfSome result (λ n. (place + 1 < length unit.now.instrs.items)
            × LeadsTo unit.now self.now store.now place (whole left ∷ []) (place + 2)
            (whole n ∷ [])) }
    {
        let Some(op) = operator_at(unit, place + 1) else {
            return None;
        };
        match self.number_at(place, unit, store) {
            None => None,
            Some(right) => calculated(op, left, right),
        }
    }

    /// Does what comes at a place with a whole number on top, which doesn't stand there yet.
    fn use_number(&mut self, number: i64, place: usize, unit: &Unit, store: &mut Store) -> bool
        ensures { GoneOn result unit.now place (whole number ∷ []) self.old store.old self.new
            store.new }
    {
        if place < unit.instrs.len() {
            if self.keep_number(number, place, unit, store) {
                return true;
            }
            if self.test_number(number, place, unit, store) {
                return true;
            }
            if self.join_below(number, place, unit, store) {
                return true;
            }
        }
        self.put_at(Value::Int(number), place, unit, store)
    }

    /// Stores the number, where that comes next, and takes it away.
    fn keep_number(&mut self, number: i64, place: usize, unit: &Unit, store: &mut Store) -> bool
        requires { place < length unit.now.instrs.items }
        ensures { GoneOn result unit.now place (whole number ∷ []) self.old store.old self.new
            store.new }
    {
        if is_copied(unit, place) {
            if !self.store_number(number, place + 1, unit, store) {
                return false;
            }
            self.top.place = place + 3;
            return true;
        }
        if !self.store_number(number, place, unit, store) {
            return false;
        }
        self.top.place = place + 1;
        true
    }

    /// Stores the number, where the instruction at a place does that.
    fn store_number(&mut self, number: i64, place: usize, unit: &Unit, store: &mut Store) -> bool
        requires { place < length unit.now.instrs.items }
        ensures { IsStored result unit.now place number self.old store.old self.new store.new }
    {
        let instr = unit.instrs[place];
        if let Instr::StoreLocal(n) = instr {
            let Some(_) = numbered(&unit.locals, n) else {
                return false;
            };
            self.top.slots.set(n as usize, Value::Int(number));
            return true;
        }
        if let Instr::StoreGlobal(n) = instr {
            let Some(name) = numbered(&unit.names, n) else {
                return false;
            };
            return store.set_known(self.top.code, n, name, Value::Int(number));
        }
        false
    }

    /// Compares the number, where that comes next: with the whole number below it, or with one that
    /// is put on it.
    fn test_number(&mut self, number: i64, place: usize, unit: &Unit, store: &Store) -> bool
        requires { place < length unit.now.instrs.items }
        ensures { GoneOn result unit.now place (whole number ∷ []) self.old store.now self.new
            store.now }
    {
        if let Some(question) = question_at(unit, place) {
            let Some(left) = self.top.operands.number(0) else {
                return false;
            };
            let Some(holds) = tested(question, left, number) else {
                return false;
            };
            self.answer_below(holds, place + 1, unit);
            return true;
        }
        let Some(question) = question_at(unit, place + 1) else {
            return false;
        };
        let Some(right) = self.number_at(place, unit, store) else {
            return false;
        };
        match tested(question, number, right) {
            None => false,
            Some(holds) => self.answer(holds, place + 2, unit, store),
        }
    }

    /// Joins the whole number below it and the number, where an operator comes next.
    fn join_below(&mut self, number: i64, place: usize, unit: &Unit, store: &Store) -> bool
        requires { place < length unit.now.instrs.items }
        ensures { GoneOn result unit.now place (whole number ∷ []) self.old store.now self.new
            store.now }
    {
        let Some(op) = operator_at(unit, place) else {
            return false;
        };
        let Some(left) = self.top.operands.number(0) else {
            return false;
        };
        match calculated(op, left, number) {
            None => false,
            Some(n) => {
                self.top.operands.put_for_top(Value::Int(n));
                self.top.place = place + 1;
                true
            }
        }
    }

    /// Goes on with a bool on top that doesn't stand there yet, or does nothing.
    fn answer(&mut self, holds: bool, place: usize, unit: &Unit, store: &Store) -> bool
        ensures { GoneOn result unit.now place (truth holds ∷ []) self.old store.now self.new
            store.now }
    {
        match led_to(unit, place, holds) {
            None => self.put_at(Value::Bool(holds), place, unit, store),
            Some(to) => {
                self.top.place = to;
                true
            }
        }
    }

    /// Goes on with a bool in place of what is on top.
    fn answer_below(&mut self, holds: bool, place: usize, unit: &Unit)
        ensures code { self.new.top.code ≡ self.old.top.code }
        ensures led { (s : Kept) (o : Outside) (x : PlainOperand) (rest : List PlainOperand)
            → plain_operands self.old.top.operands ≡ x ∷ rest
            → Leads unit.now (placed place (truth holds ∷ rest) (seen self.old s o))
            (seen self.new s o) }
    {
        match led_to(unit, place, holds) {
            None => {
                self.top.operands.put_for_top(Value::Bool(holds));
                self.top.place = place;
            }
            Some(to) => {
                let _ = self.top.operands.pop();
                self.top.place = to;
            }
        }
    }

    /// Puts a value on top and stays at a place, or does nothing, where no memory is left for it.
    fn put_at(&mut self, value: Value, place: usize, unit: &Unit, store: &Store) -> bool
        ensures { GoneOn result unit.now place (of_value (plain value) ∷ []) self.old store.now
            self.new store.now }
    {
        if self.top.operands.push(Operand::Value(value)).is_err() {
            return false;
        }
        self.top.place = place;
        true
    }
}
