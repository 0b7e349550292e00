// Code, and programs of it.
ghost use Rattle.std.specs.Prelude.{◌≡◌, map};
ghost use Rattle.py_code.specs.Units.{plain_unit};
ghost use Rattle.py_code.specs.Loaded.{modules_of};
ghost use Rattle.py_code.specs.Valid.{IsCode, AreCodes};

use crate::unit::Unit;
use std::marker::Model;

/// The most units of a code: a `u32` counts them.
pub const MOST_UNITS: usize = 4_294_967_295;

/// The code of a module: unit 0 is its body, and unit k its k-th `def`. A machine that runs it
/// misses nothing.
#[derive(Drop)]
pub struct Code {
    units: Vec<Unit>,
}

impl Model for Code {
    ghost use Rattle.std.specs.Prelude.{List, map};
    ghost use Rattle.py_code.specs.Units.{Code as PlainUnit, plain_unit};
    ghost use Rattle.py_code.specs.Valid.{IsCode};

    ghost Value = { List PlainUnit };

    ghost view = { λ c. map plain_unit c.units.items };

    ghost invariant = { λ c. IsCode (map plain_unit c.units.items) };
}

impl Code {
    /// The code of these units. There are from 1 to `MOST_UNITS`.
    pub fn new(units: Vec<Unit>) -> Code
        requires { IsCode (map plain_unit units.items) }
        ensures { result ≡ map plain_unit units.items }
    {
        Code { units }
    }

    /// The units, in order.
    pub fn units(&self) -> &[Unit]
        ensures units { map plain_unit result.now ≡ self.now }
        ensures valid { IsCode self.now }
    {
        &self.units
    }
}

/// A module: its name, the path of its source, and its code.
#[derive(Drop)]
pub struct Program {
    pub name: String,
    pub path: String,
    pub code: Code,
}

/// The modules of a program, the script first.
#[derive(Drop)]
pub struct Programs {
    pub modules: Vec<Program>,
}

impl Programs {
    /// Each of their codes is one that a machine runs without missing anything. Whoever runs them
    /// asks for that.
    pub fn are_valid(&self)
        ensures { AreCodes (modules_of self.now) }
    {
        for program in &self.modules {
            program.code.units();
        }
    }
}
