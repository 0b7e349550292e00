// What calls of globals lead to.
ghost use Rattle.std.specs.Prelude.{◌≡◌, IfOk};
ghost use Rattle.py_value.specs.View.{plains};
ghost use Rattle.py_builtins.specs.Attributes.{or_raise};
ghost use Rattle.py_builtins.specs.Faults.{name_unknown};
ghost use Rattle.py_builtins.specs.World.{global_of};
ghost use Rattle.py_code.specs.Loaded.{modules_of};
ghost use Rattle.py_code.specs.Programs.{reach_global};
ghost use Rattle.py_instructions.specs.Reaching.{plain_reach, BeginsUnit};
ghost use Rattle.py_instructions.specs.View.{Outside, effects_of};
ghost use Rattle.py_world.specs.Stores.{world_of};

use py_code::Programs;
use py_instructions::Reach;
use py_value::{NoMemory, Text, Value};
use py_world::{Store, name_unknown};
use std::alloc::Global;

/// A call of what a global of a module holds.
pub fn reach_global(
    alloc: Global,
    module: u32,
    name: &Text,
    values: Vec<Value>,
    store: &Store,
    programs: &Programs,
) -> Result<Reach, NoMemory>
    ensures leads { IfOk result (λ r. (o : Outside) →
        reach_global (modules_of programs.now)
        (or_raise (name_unknown name.now) (global_of «module» name.now (world_of store.now)))
        (plains values.items) (effects_of store.now o)
        ≡ plain_reach r (effects_of store.now o)) }
    ensures unit { IfOk result (BeginsUnit (modules_of programs.now)) }
{
    match store.global(module, name) {
        None => {
            drop(values);
            Ok(Reach::Raises(name_unknown(alloc, name)?))
        }
        Some(value) => Reach::of_value(alloc, value, values, store, programs),
    }
}
