// A hook: a function of a program of its own that gives labels.
ghost use Rattle.std.specs.Prelude.{◌≡◌, ◌<◌, ◌≤◌, ◌↔◌, length, IfOk, OnOk, IsErrOf};
ghost use Rattle.std.specs.Str.{chars};
ghost use Rattle.py_code.specs.Loaded.{modules_of, most_numbered};
ghost use Rattle.cov_hook.specs.Functions.{Defines};

use crate::asking::ask_function;
use crate::error::HookError;
use crate::functions::defines;
use crate::opening::opened_store;
use cov_event::Ask;
use py_code::Programs;
use py_machine::Store;
use py_value::{NoMemory, Text};
use std::alloc::Global;

/// Labels calls by a function of a program, which runs on a store of the hook's own. Once the body
/// of its script or a call of the function raised, exited or was cut, or a question was refused for
/// memory, the hook is off: it gives no label any more.
#[derive(Drop)]
pub struct Hook {
    programs: Programs,
    function: Text,
    store: Option<Box<Store>>,
    ghost some: { 0 < length (modules_of programs) },
    ghost few: { length (modules_of programs) ≤ most_numbered },
}

impl Hook {
    ghost use Rattle.cov_hook.specs.States.{opened};
    ghost use Rattle.cov_hook.specs.View.{path_of, state_of};

    /// Runs the body of the script, with empty input and with its output thrown away. `sys.argv` is
    /// the list of the script's path.
    pub fn open(alloc: Global, programs: Programs, function: &str) -> Result<Hook, HookError>
        requires some { 0 < length (modules_of programs) }
        requires few { length (modules_of programs) ≤ most_numbered }
        ensures opened { IfOk result (λ hook. state_of hook
            ≡ opened (modules_of programs) (path_of programs) (chars function.now)) }
        ensures has_function { OnOk result (Defines (modules_of programs) (chars function.now)) }
        ensures no_function { IsErrOf result HookError.NoFunction
            ↔ (Defines (modules_of programs) (chars function.now) → ⊥) }
    {
        if !defines(&programs, function) {
            drop(programs);
            return Err(HookError::NoFunction);
        }
        let function = Text::from_str(alloc, function)?;
        let store = opened_store(alloc, &programs)?;
        Ok(Hook {
            programs,
            function,
            store,
        })
    }
}

impl Ask for Hook {
    ghost use Rattle.cov_hook.specs.Questions.{Answers, GivesUp};
    ghost use Rattle.cov_hook.specs.View.{state_of};

    ghost moves = { λ old «module» function label new.
        Answers (state_of old) «module» function label (state_of new) };

    ghost refused = { λ old new. GivesUp (state_of old) (state_of new) };

    fn ask(
        &mut self,
        alloc: Global,
        module: &str,
        function: &str,
    ) -> Result<Option<Text>, NoMemory> {
        match self.store.take() {
            None => Ok(None),
            Some(store) => {
                let asked = ask_function(
                    alloc,
                    &self.programs,
                    &self.function,
                    module,
                    function,
                    store,
                )?;
                self.store = asked.store;
                Ok(asked.label)
            }
        }
    }
}
