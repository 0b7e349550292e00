// Exceptions in a frame.
ghost use Rattle.std.specs.Prelude.{◌≡◌, false, IfOk};
ghost use Rattle.py_value.specs.View.{plain_raised};
ghost use Rattle.py_code.specs.Configurations.{Next};
ghost use Rattle.py_code.specs.Loaded.{modules_of};
ghost use Rattle.py_code.specs.Machine.{land};
ghost use Rattle.py_code.specs.Slots.{by_slots};
ghost use Rattle.py_code.specs.Units.{handler_at};
ghost use Rattle.py_world.specs.declared.store.Store.{Store as Kept};
ghost use Rattle.py_instructions.specs.View.{Slots as SlotList, Outside, seen, catching};

use crate::frame::State;
use crate::operand::{Operand, Way, copy_raised};
use py_code::Programs;
use py_value::{NoMemory, Raised};
use py_world::handler_in;

impl State {
    /// Goes on at the handler of the present place, if there is one.
    pub fn catch(
        &mut self,
        raised: &Raised,
        is_thrown: bool,
        programs: &Programs,
    ) -> Result<bool, NoMemory>
        ensures caught { IfOk result (λ is. (s : Kept) (o : Outside) (out : Next SlotList) →
            land (by_slots (modules_of programs.now)) (modules_of programs.now)
            (handler_at (modules_of programs.now) self.old.top.code self.old.top.place) out
            (plain_raised raised.now) is_thrown (seen self.old s o)
            ≡ catching is out (seen self.new s o)) }
        ensures kept { IfOk result (λ is. is ≡ false → self.new ≡ self.old) }
    {
        match handler_in(programs, self.top.code, self.top.place) {
            None => Ok(false),
            Some(handler) => {
                self.top.operands.keep(handler.depth as usize);
                let copy = copy_raised(raised)?;
                self.top
                    .operands
                    .push(Operand::Way(Way::Raise(copy, is_thrown)))?;
                self.top.place = handler.target as usize;
                Ok(true)
            }
        }
    }
}
