// The operands of a frame.
ghost use Rattle.std.specs.Prelude.{◌≡◌, ◌∷◌, ◌++◌, List, None, Some, length, map, take, drop, remove, reverse, nat_le, slice_get, IfOk, IfSome, OnOk, MatchOption};
ghost use Rattle.py_value.specs.HeapView.{plain_heap};
ghost use Rattle.py_value.specs.Plain.{bool_value, int_value};
ghost use Rattle.py_value.specs.View.{plain, plains};
ghost use Rattle.py_builtins.specs.Making.{sliced};
ghost use Rattle.py_code.specs.declared.instr.Instr.TheVariants.{Slice};
ghost use Rattle.py_code.specs.Changes.{halted, heap_of};
ghost use Rattle.py_code.specs.Configurations.{Configuration, Operand as PlainOperand, of_value, stuck};
ghost use Rattle.py_code.specs.Machine.{act, makes};
ghost use Rattle.py_code.specs.Operands.{value_in};
ghost use Rattle.py_code.specs.Slots.{by_slots};
ghost use Rattle.py_code.specs.Units.{Code, Module};
ghost use Rattle.py_world.specs.Values.{plain_option};
ghost use Rattle.py_instructions.specs.Operands.{plain_operand, borrows_if_any};
ghost use Rattle.py_instructions.specs.View.{Slots, plain_operands, Discards, Inserts, TakesValues, TakesValue, TakesTwo, TakesTwoValues, TakesTruth};

use crate::operand::Operand;
use crate::stack::Stack;
use py_code::Bounds;
use py_value::{Heap, NoMemory, Value, truth};
use std::alloc::Global;

impl Stack<Operand> {
    /// The operand so many below the top one.
    pub fn operand(&self, below: usize) -> Option<&Operand>
        ensures { MatchOption result (slice_get (plain_operands self.now) below ≡ None)
            (λ x. slice_get (plain_operands self.now) below ≡ Some (plain_operand x.now)) }
    {
        self.get(below)
    }

    /// The whole number that stands so many below the top, if it is one.
    pub(crate) fn number(&self, below: usize) -> Option<i64>
        ensures { IfSome result (λ n. slice_get (plain_operands self.now) below
            ≡ Some (of_value (int_value n))) }
    {
        match self.operand(below) {
            None => None,
            Some(operand) => operand.number(),
        }
    }

    /// The bool on top, if one is.
    pub(crate) fn bool_on_top(&self) -> Option<bool>
        ensures { IfSome result (λ b. slice_get (plain_operands self.now) 0
            ≡ Some (of_value (bool_value b))) }
    {
        match self.operand(0) {
            None => None,
            Some(top) => top.bool(),
        }
    }

    /// Puts a value in place of the topmost operand, where there is one.
    pub(crate) fn put_for_top(&mut self, value: Value)
        ensures { (x : PlainOperand) (rest : List PlainOperand)
            → plain_operands self.old ≡ x ∷ rest
            → plain_operands self.new ≡ of_value (plain value) ∷ rest }
    {
        self.replace_top(Operand::Value(value));
    }

    /// Puts a value in place of the two topmost operands, where there are two.
    pub(crate) fn put_for_two(&mut self, value: Value)
        ensures { (y x : PlainOperand) (rest : List PlainOperand)
            → plain_operands self.old ≡ y ∷ x ∷ rest
            → plain_operands self.new ≡ of_value (plain value) ∷ rest }
    {
        self.replace_two(Operand::Value(value));
    }

    /// Takes the operand so many below the top one away.
    pub fn take_operand(&mut self, below: usize) -> Option<Operand>
        ensures { MatchOption result (slice_get (plain_operands self.old) below ≡ None)
            (λ x. (slice_get (plain_operands self.old) below ≡ Some (plain_operand x))
            × (plain_operands self.new ≡ remove (plain_operands self.old) below)) }
    {
        self.remove(below)
    }

    /// Takes two operands away, the lower one first.
    pub fn take_two(&mut self) -> Option<(Operand, Operand)>
        ensures { TakesTwo result self.old self.new }
    {
        let Some(y) = self.pop() else {
            return None;
        };
        match self.pop() {
            None => {
                drop(y);
                None
            }
            Some(x) => Some((x, y)),
        }
    }

    /// Takes the topmost operand away, as a value.
    pub fn take_value(&mut self) -> Option<Value>
        ensures { TakesValue result (plain_operands self.old) (plain_operands self.new) }
    {
        match self.pop() {
            None => None,
            Some(x) => Some(x.into_value()),
        }
    }

    /// Takes two operands away, as values, the lower one first.
    pub fn take_two_values(&mut self) -> Option<(Value, Value)>
        ensures { TakesTwoValues result (plain_operands self.old) (plain_operands self.new) }
    {
        let Some(right) = self.take_value() else {
            return None;
        };
        match self.take_value() {
            None => {
                drop(right);
                None
            }
            Some(left) => Some((left, right)),
        }
    }

    /// Takes the value that a slice is of away, and those of the bounds that it has.
    pub fn take_sliced(&mut self, bounds: Bounds) -> Option<(Value, Option<Value>, Option<Value>)>
        ensures { MatchOption result
            ((ms : List Module) (u : Code) (c : Configuration Slots) →
            act (by_slots ms) ms u (Slice bounds) (plain_operands self.old) c ≡ halted stuck c)
            (λ x. (ms : List Module) (u : Code) (c : Configuration Slots) →
            act (by_slots ms) ms u (Slice bounds) (plain_operands self.old) c
            ≡ makes (by_slots ms) ms
            (sliced (plain x.0) (plain_option x.1) (plain_option x.2) (heap_of c))
            (plain_operands self.new) c) }
    {
        match bounds {
            Bounds::Neither => match self.take_value() {
                None => None,
                Some(of) => Some((of, None, None)),
            },
            Bounds::From => match self.take_two_values() {
                None => None,
                Some((of, first)) => Some((of, Some(first), None)),
            },
            Bounds::To => match self.take_two_values() {
                None => None,
                Some((of, last)) => Some((of, None, Some(last))),
            },
            Bounds::Both => {
                let Some((first, last)) = self.take_two_values() else {
                    return None;
                };
                match self.take_value() {
                    None => {
                        drop(first);
                        drop(last);
                        None
                    }
                    Some(of) => Some((of, Some(first), Some(last))),
                }
            }
        }
    }

    /// Takes the topmost operand away, and says whether it is true.
    pub fn take_truth(&mut self, heap: &Heap) -> Option<bool>
        ensures { TakesTruth result (plain_heap heap.now) (plain_operands self.old)
            (plain_operands self.new) }
    {
        let Some(value) = self.take_value() else {
            return None;
        };
        let holds = truth(&value, heap);
        drop(value);
        Some(holds)
    }

    /// Takes so many operands away, where there are so many.
    pub fn discard(&mut self, n: usize) -> bool
        ensures { Discards result n (plain_operands self.old) (plain_operands self.new) }
    {
        let count = self.len();
        if n <= count {
            self.keep(count - n);
            true
        } else {
            false
        }
    }

    /// Puts an operand below so many others, where there are so many.
    pub fn sink(&mut self, n: usize, x: Operand) -> Result<bool, NoMemory>
        ensures { IfOk result (λ has.
            Inserts has n (plain_operand x) (plain_operands self.old) (plain_operands self.new)) }
    {
        if n <= self.len() {
            self.insert(n, x)?;
            Ok(true)
        } else {
            drop(x);
            Ok(false)
        }
    }

    /// Whether a call of the operand so many below the top one only borrows its values.
    pub fn borrows_values(&self, below: usize) -> bool
        ensures { result ≡ borrows_if_any (slice_get (plain_operands self.now) below) }
    {
        match self.operand(below) {
            None => false,
            Some(operand) => operand.borrows_values(),
        }
    }

    /// Takes so many values away, the lowest first, where there are so many. They come in this
    /// list, in place of what it held.
    pub fn take_values(
        &mut self,
        list: Vec<Value>,
        n: usize,
    ) -> Result<Option<Vec<Value>>, NoMemory>
        ensures { IfOk result (λ vs.
            TakesValues vs n (plain_operands self.old) (plain_operands self.new)) }
    {
        if n > self.len() {
            drop(list);
            return Ok(None);
        }
        let mut values = list;
        values.clear();
        values.reserve_exact(n)?;
        while values.len() < n {
            match self.pop() {
                None => return Ok(None),
                Some(x) => values.push(x.into_value())?,
            }
        }
        values.reverse();
        Ok(Some(values))
    }

    /// Puts copies of values on top, the first one topmost.
    pub fn spread_copies(&mut self, alloc: Global, values: &[Value]) -> Result<(), NoMemory>
        ensures { OnOk result (plain_operands self.new
            ≡ map of_value (plains values.now) ++ plain_operands self.old) }
    {
        let mut rest = values.len();
        while rest > 0 {
            rest -= 1;
            let copy = values[rest].copy(alloc)?;
            self.push(Operand::Value(copy))?;
        }
        Ok(())
    }

    /// Puts values on top, the first one topmost.
    pub fn spread(&mut self, values: Vec<Value>) -> Result<(), NoMemory>
        ensures { OnOk result (plain_operands self.new
            ≡ map of_value (plains values.items) ++ plain_operands self.old) }
    {
        let mut rest = values;
        while let Some(value) = rest.pop() {
            self.push(Operand::Value(value))?;
        }
        Ok(())
    }
}
