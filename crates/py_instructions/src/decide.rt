// One instruction, as far as the machine does it alone.
ghost use Rattle.std.specs.Prelude.{◌≡◌, ◌<◌, ◌≤◌, length, IfOk};
ghost use Rattle.py_code.specs.Loaded.{modules_of, most_numbered};
ghost use Rattle.py_code.specs.Machine.{move};
ghost use Rattle.py_code.specs.Slots.{by_slots};
ghost use Rattle.py_code.specs.Units.{plain_unit};
ghost use Rattle.py_instructions.specs.View.{Outside, seen, turned, Acts};

use crate::frame::State;
use crate::turn::Turn;
use py_code::{Instr, Programs, Unit};
use py_value::NoMemory;
use py_world::{Store, unit_in};
use std::alloc::Global;

impl State {
    /// The instruction at the present place.
    pub fn decide(
        &mut self,
        alloc: Global,
        store: &mut Store,
        programs: &Programs,
    ) -> Result<Turn, NoMemory>
        requires { length (modules_of programs.now) ≤ most_numbered }
        ensures { IfOk result (λ t.
            (o : Outside)
            → move (by_slots (modules_of programs.now)) (modules_of programs.now)
            (seen self.old store.old o)
            ≡ turned (modules_of programs.now) t (seen self.new store.new o)) }
    {
        match unit_in(programs, self.top.code) {
            None => Ok(Turn::Stuck),
            Some(unit) => {
                if self.top.place < unit.instrs.len() {
                    let instr = unit.instrs[self.top.place];
                    self.act(alloc, instr, unit, store, programs)
                } else {
                    Ok(Turn::Stuck)
                }
            }
        }
    }

    /// Does an instruction of the unit, as far as the machine does it alone.
    pub(crate) fn act(
        &mut self,
        alloc: Global,
        instr: Instr,
        unit: &Unit,
        store: &mut Store,
        programs: &Programs,
    ) -> Result<Turn, NoMemory>
        requires room { self.old.top.place < usize.MAX }
        requires few { length (modules_of programs.now) ≤ most_numbered }
        ensures { IfOk result (λ t.
            Acts (modules_of programs.now) (plain_unit unit.now) instr self.old store.old self.new
            store.new t) }
    {
        match instr {
            Instr::Constant(n) => self.constant(unit, n),
            Instr::Pop => Ok(self.pop(unit)),
            Instr::Copy(n) => self.copy(alloc, unit, n),
            Instr::Sink(n) => self.sink(unit, n),
            Instr::Roll(n) => self.roll(unit, n),
            Instr::LoadLocal(n) => self.load_local(alloc, unit, n),
            Instr::StoreLocal(n) => Ok(self.store_local(unit, n)),
            Instr::UnsetLocal(n) => Ok(self.unset_local(unit, n)),
            Instr::LoadGlobal(n) => self.load_global(alloc, unit, n, store),
            Instr::StoreGlobal(n) => self.store_global(alloc, unit, n, store),
            Instr::UnsetGlobal(n) => self.unset_global(alloc, unit, n, store),
            Instr::Text => self.text(alloc, unit, store),
            Instr::Extend => self.extend(alloc, unit, store),
            Instr::Tuple(n) => self.tuple(alloc, unit, n),
            Instr::List(n) => self.list(alloc, unit, n, store),
            Instr::Dict => self.dict(unit, store),
            Instr::AddPair => self.add_pair(alloc, unit, store),
            Instr::Not => self.not(unit, store),
            Instr::Binary(op) => self.binary(alloc, unit, op, store),
            Instr::InPlace(op) => self.in_place(alloc, unit, op, store),
            Instr::Compare(question) => self.compare(alloc, unit, question, store),
            Instr::Index => self.index(alloc, unit, store),
            Instr::Slice(bounds) => self.slice(alloc, unit, bounds, store),
            Instr::Attribute(n) => self.attribute(alloc, unit, n, store),
            Instr::StoreIndex => self.store_index(alloc, unit, store),
            Instr::Unpack(n) => self.unpack(alloc, unit, n, store),
            Instr::Goto(to) => Ok(self.goto(unit, to)),
            Instr::IfFalse(to) => Ok(self.if_false(unit, to, store)),
            Instr::IfTrue(to) => Ok(self.if_true(unit, to, store)),
            Instr::And(to) => self.and(unit, to, store),
            Instr::Or(to) => self.or(unit, to, store),
            Instr::Link(question, to) => self.link(alloc, unit, question, to, store),
            Instr::Unless(n, to) => Ok(self.unless(unit, n, to, store)),
            Instr::Sequence(count, n, to) => self.sequence(alloc, unit, count, n, to, store),
            Instr::Mark(n) => Ok(self.mark(unit, n)),
            Instr::Again(n) => Ok(self.again(unit, n)),
            Instr::Walk => self.walk(alloc, unit, store),
            Instr::Next(to) => self.next(alloc, unit, to, store),
            Instr::Method(n) => self.method(alloc, unit, n, store),
            Instr::Call(n) => self.call(alloc, unit, n, store, programs),
            Instr::Return => Ok(self.give_back(unit)),
            Instr::Function(k) => self.function(unit, k),
            Instr::FunctionWith(k) => self.function_with(unit, k),
            Instr::Import(n) => self.import(alloc, unit, n, store, programs),
            Instr::Module(n) => self.load_module(alloc, unit, n, programs),
            Instr::Take(m, n) => self.take(alloc, unit, m, n, store),
            Instr::Raise => self.raise(alloc, unit),
            Instr::Reraise(n) => self.reraise(unit, n),
            Instr::Assertion => Ok(self.assertion(unit)),
            Instr::AssertionWith => self.assertion_with(alloc, unit),
            Instr::Catches => self.catches(alloc, unit),
            Instr::Caught => self.caught(unit),
            Instr::Uncaught => self.uncaught(unit),
            Instr::Leave(n, to) => Ok(self.leave(unit, n, to)),
            Instr::Ending => self.ending(unit),
            Instr::Breaking(n, to) => self.breaking(unit, n, to),
            Instr::Continuing(n, to) => self.continuing(unit, n, to),
            Instr::Returning(n, to) => self.returning(unit, n, to),
            Instr::Settle => self.settle(unit),
            Instr::Release => self.release(unit),
        }
    }
}
