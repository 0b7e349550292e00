// Where an instruction goes on.
ghost use Rattle.std.specs.Prelude.{◌∷◌, ◌<◌, List, IfOk};
ghost use Rattle.py_value.specs.View.{plain_value_answer};
ghost use Rattle.py_code.specs.Machine.{falls, jumps, pushes_answer};
ghost use Rattle.py_code.specs.Slots.{by_slots};
ghost use Rattle.py_code.specs.Units.{Module};
ghost use Rattle.py_world.specs.declared.store.Store.{Store as Kept};
ghost use Rattle.py_instructions.specs.Operands.{plain_operand};
ghost use Rattle.py_instructions.specs.View.{Does, DoesAlone};

use crate::frame::State;
use crate::operand::Operand;
use crate::turn::{Acted, Turn};
use py_value::{Raised, Value};

impl State {
    /// Goes on at the next place.
    pub(crate) fn fall(&mut self) -> Turn
        requires { self.old.top.place < usize.MAX }
        ensures { DoesAlone falls self.old self.new result }
    {
        self.top.place += 1;
        Turn::Goes
    }

    /// Goes on at another place.
    pub(crate) fn jump(&mut self, to: u32) -> Turn
        ensures { DoesAlone (jumps to) self.old self.new result }
    {
        self.top.place = to as usize;
        Turn::Goes
    }

    /// Goes on at the next place, with one operand more.
    pub(crate) fn push(&mut self, x: Operand) -> Acted
        requires { self.old.top.place < usize.MAX }
        ensures { IfOk result
            (DoesAlone (λ xs. falls (plain_operand x ∷ xs)) self.old self.new) }
    {
        self.top.operands.push(x)?;
        self.top.place += 1;
        Ok(Turn::Goes)
    }

    /// Goes on at the next place, with the value of an answer on top, or throws its exception.
    pub(crate) fn push_answer(&mut self, answer: Result<Value, Raised>) -> Acted
        requires { self.old.top.place < usize.MAX }
        ensures { IfOk result (λ t. (ms : List Module) (s : Kept) → Does ms
            (pushes_answer (by_slots ms) ms (plain_value_answer answer)) self.old s self.new s
            t) }
    {
        match answer {
            Ok(value) => self.push(Operand::Value(value)),
            Err(raised) => Ok(Turn::Throws(raised)),
        }
    }
}
