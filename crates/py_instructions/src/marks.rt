// Lines.
ghost use Rattle.std.specs.Prelude.{◌<◌};
ghost use Rattle.py_code.specs.declared.instr.Instr.TheVariants.{Mark, Again};
ghost use Rattle.py_instructions.specs.View.{ActsAlone};

use crate::frame::State;
use crate::numbered::numbered;
use crate::turn::Turn;
use cov_event::Event;
use py_code::Unit;

impl State {
    pub fn mark(&mut self, unit: &Unit, n: u32) -> Turn
        requires { self.old.top.place < usize.MAX }
        ensures { ActsAlone unit.now (Mark n) self.old self.new result }
    {
        match numbered(&unit.lines, n) {
            None => Turn::Stuck,
            Some(line) => {
                if self.steps == 0 {
                    return Turn::Spent;
                }
                self.steps -= 1;
                self.top.place += 1;
                if self.top.line == *line {
                    Turn::Steps
                } else {
                    self.top.line = *line;
                    Turn::Tells(Event::Line(*line))
                }
            }
        }
    }

    pub fn again(&mut self, unit: &Unit, n: u32) -> Turn
        requires { self.old.top.place < usize.MAX }
        ensures { ActsAlone unit.now (Again n) self.old self.new result }
    {
        match numbered(&unit.lines, n) {
            None => Turn::Stuck,
            Some(line) => {
                if self.steps == 0 {
                    return Turn::Spent;
                }
                self.steps -= 1;
                self.top.place += 1;
                self.top.line = *line;
                Turn::Tells(Event::Line(*line))
            }
        }
    }
}
