// What a program's modules hold.
ghost use Rattle.std.specs.Prelude.{◌≡◌, ◌<◌, None, Some, length, map, slice_get, IfOk, IfSome, OnOk, MatchOption};
ghost use Rattle.py_value.specs.Plain.{int_value, str_value};
ghost use Rattle.py_value.specs.View.{plain, plains};
ghost use Rattle.py_builtins.specs.Predefined.{predefined};
ghost use Rattle.py_builtins.specs.World.{value_of, with_names_at, global_of, with_global, without_global, sys_name, is_begun, with_begun, first_names, without_number};
ghost use Rattle.py_builtins.specs.Attributes.{module_global};
ghost use Rattle.py_code.specs.Loaded.{module_of, modules_of};
ghost use Rattle.py_code.specs.Machine.{begun_by, failed_by, name_at};
ghost use Rattle.py_world.specs.Globals.{names_of};
ghost use Rattle.py_world.specs.Values.{plain_option};
ghost use Rattle.py_code.specs.Programs.{first_world, no_names};
ghost use Rattle.py_world.specs.Stores.{words_of, world_of, IsSetOrSame};

use crate::globals::Globals;
use crate::known_names::predefined;
use crate::links::Links;
use crate::table::Table;
use crate::texts::{is_argv, is_exit};
use cov_event::CodeId;
use py_code::{Program, Programs};
use py_value::value::ModId;
use py_value::{Addr, Builtin, Heap, NoMemory, Text, Value};
use std::alloc::Global as Alloc;

/// The globals of the modules, the modules that were begun, the lists and dicts, and the list of
/// the words.
#[derive(Drop)]
pub struct Store {
    pub(crate) globals: Vec<Globals>,
    pub(crate) begun: Vec<u32>,
    pub heap: Heap,
    pub(crate) words: Addr,
    pub(crate) links: Links,
}

impl Store {
    /// The store of programs before they run. `sys.argv` holds these words.
    pub fn new(alloc: Alloc, programs: &Programs, words: &[String]) -> Result<Store, NoMemory>
        ensures { IfOk result (λ store.
            world_of store ≡ first_world (modules_of programs.now) (words_of words.now)) }
    {
        let mut links = Links {
            modules: Vec::new(alloc),
        };
        let globals = no_globals(alloc, &programs.modules, &mut links)?;
        let mut heap = Heap::new(alloc);
        let words = heap.make_list(word_values(alloc, words)?)?;
        Ok(Store {
            globals,
            begun: Vec::new(alloc),
            heap,
            words,
            links,
        })
    }

    /// An equal store.
    pub fn copy(&self, alloc: Alloc) -> Result<Store, NoMemory>
        ensures { IfOk result (λ copy. world_of copy ≡ world_of self.now) }
    {
        let globals = copy_globals(alloc, &self.globals)?;
        let begun = copy_numbers(alloc, &self.begun)?;
        let heap = self.heap.copy()?;
        let links = self.links.copy(alloc)?;
        Ok(Store {
            globals,
            begun,
            heap,
            words: self.words,
            links,
        })
    }

    /// The value of a global of a module, if it is set.
    pub fn global(&self, module: u32, name: &Text) -> Option<&Value>
        ensures { MatchOption result (global_of «module» name.now (world_of self.now) ≡ None)
            (λ v. global_of «module» name.now (world_of self.now) ≡ Some (plain v.now)) }
    {
        self.found(module, name, None)
    }

    /// The value of a global of the module of a code, if it is set. Its name has this number in the
    /// code.
    pub fn global_at(&self, code: CodeId, n: u32, name: &Text) -> Option<&Value>
        ensures { MatchOption result (global_of code.module name.now (world_of self.now) ≡ None)
            (λ v. global_of code.module name.now (world_of self.now) ≡ Some (plain v.now)) }
    {
        self.found(code.module, name, self.links.number(code, n))
    }

    /// The whole number that a global of the module of a code is set to, if it is found at once by
    /// the number that its name has in the code.
    pub fn whole_at(&self, code: CodeId, n: u32, name: &Text) -> Option<i64>
        ensures { IfSome result (λ k. global_of code.module name.now (world_of self.now)
            ≡ Some (int_value k)) }
    {
        let Some(number) = self.links.number(code, n) else {
            return None;
        };
        match self.globals_of(code.module) {
            None => None,
            Some(globals) => globals.whole(name, number),
        }
    }

    /// The value of what is predefined under a name, which has this number in the code.
    pub fn predefined_at(&self, code: CodeId, n: u32, name: &Text) -> Option<Value>
        ensures { MatchOption result (value_of name.now predefined ≡ None) (λ v.
            value_of name.now predefined ≡ Some (plain v)) }
    {
        match self.globals_of(code.module) {
            None => predefined(name),
            Some(globals) => globals.predefined(name, self.links.number(code, n)),
        }
    }

    /// The value of a global of a module, if it is set. It is looked for at this number first.
    fn found(&self, module: u32, name: &Text, likely: Option<usize>) -> Option<&Value>
        ensures { MatchOption result (global_of «module» name.now (world_of self.now) ≡ None)
            (λ v. global_of «module» name.now (world_of self.now) ≡ Some (plain v.now)) }
    {
        match self.globals_of(module) {
            None => None,
            Some(globals) => globals.get(name, likely),
        }
    }

    /// The globals of a module, if it has some.
    fn globals_of(&self, module: u32) -> Option<&Globals>
        ensures { MatchOption result (slice_get self.now.globals.items «module» ≡ None)
            (λ g. slice_get self.now.globals.items «module» ≡ Some g.now) }
    {
        self.globals.get(module as usize)
    }

    /// Sets a global of the module of a code. Its name has this number in the code.
    pub fn set_global(
        &mut self,
        alloc: Alloc,
        code: CodeId,
        n: u32,
        name: &Text,
        value: Value,
    ) -> Result<(), NoMemory>
        ensures { OnOk result (world_of self.new
            ≡ with_global code.module name.now (plain value) (world_of self.old)) }
    {
        let likely = self.links.number(code, n);
        make_room(alloc, &mut self.globals, code.module as usize)?;
        self.globals[code.module as usize].set(name, likely, value)?;
        Ok(())
    }

    /// Sets a global of the module of a code, or does nothing, and says which. It is set where it
    /// has a value already and is found by the number that its name has in the code.
    pub fn set_known(&mut self, code: CodeId, n: u32, name: &Text, value: Value) -> bool
        ensures { IsSetOrSame result code.module name.now (plain value) self.old self.new }
    {
        let Some(number) = self.links.number(code, n) else {
            return false;
        };
        let module = code.module as usize;
        if module >= self.globals.len() || !self.globals[module].is_known(name, number) {
            return false;
        }
        self.globals[module].set_again(number, value);
        true
    }

    /// Unsets a global of the module of a code. Its name has this number in the code.
    pub fn unset_global(
        &mut self,
        alloc: Alloc,
        code: CodeId,
        n: u32,
        name: &Text,
    ) -> Result<(), NoMemory>
        ensures { OnOk result (world_of self.new
            ≡ without_global code.module name.now (world_of self.old)) }
    {
        let likely = self.links.number(code, n);
        make_room(alloc, &mut self.globals, code.module as usize)?;
        self.globals[code.module as usize].unset(name, likely);
        Ok(())
    }

    /// A name of a module.
    pub fn name_of(
        &self,
        alloc: Alloc,
        module: ModId,
        name: &Text,
    ) -> Result<Option<Value>, NoMemory>
        ensures { IfOk result (λ found.
            plain_option found ≡ module_global «module» name.now (world_of self.now)) }
    {
        match module {
            ModId::Loaded(number) => match self.global(number, name) {
                None => Ok(None),
                Some(value) => Ok(Some(value.copy(alloc)?)),
            },
            ModId::Sys => Ok(self.sys_name(name)),
        }
    }

    /// A name of `sys`.
    fn sys_name(&self, name: &Text) -> Option<Value>
        ensures { plain_option result ≡ sys_name (world_of self.now) name.now }
    {
        if is_argv(name) {
            Some(Value::List(self.words))
        } else if is_exit(name) {
            Some(Value::Builtin(Builtin::Exit))
        } else {
            None
        }
    }

    /// Whether a module was begun.
    pub fn is_begun(&self, module: u32) -> bool
        ensures { result ≡ is_begun «module» (world_of self.now) }
    {
        for number in &self.begun {
            if *number == module {
                return true;
            }
        }
        false
    }

    /// A frame of this code begins: the body of a module begins it.
    pub fn enter(&mut self, alloc: Alloc, code: CodeId, programs: &Programs) -> Result<(), NoMemory>
        ensures { OnOk result (world_of self.new
            ≡ begun_by (modules_of programs.now) code code.unit (world_of self.old)) }
    {
        if code.unit > 0 {
            return Ok(());
        }
        let name = module_name(alloc, code.module, programs)?;
        self.begin(alloc, code.module, name)
    }

    /// A module begins, with its name set and no others.
    fn begin(&mut self, alloc: Alloc, module: u32, name: Text) -> Result<(), NoMemory>
        ensures { OnOk result (world_of self.new
            ≡ with_begun «module» (first_names name) (world_of self.old)) }
    {
        let name = Value::Str(name);
        make_room(alloc, &mut self.globals, module as usize)?;
        let mut names = self.globals[module as usize].unset_all(alloc)?;
        names.set(&Text::from_str(alloc, "__name__")?, None, name)?;
        self.globals[module as usize] = names;
        self.begun.push(module)?;
        Ok(())
    }

    /// An exception leaves a frame: the module of a body counts as not begun.
    pub fn fail(&mut self, code: CodeId)
        ensures { world_of self.new ≡ failed_by code code.unit (world_of self.old) }
    {
        if code.unit == 0 {
            forget(&mut self.begun, code.module);
        }
    }
}

/// The name of a module, empty where there is none.
fn module_name(alloc: Alloc, module: u32, programs: &Programs) -> Result<Text, NoMemory>
    ensures { IfOk result (λ name. name ≡ name_at (slice_get (modules_of programs.now) «module»)) }
{
    match programs.modules.get(module as usize) {
        None => Ok(Text::new(alloc)),
        Some(program) => Ok(Text::from_str(alloc, program.name.as_str())?),
    }
}

/// Makes room for the globals of a module.
fn make_room(alloc: Alloc, globals: &mut Vec<Globals>, module: usize) -> Result<(), NoMemory>
    ensures ok { OnOk result (map names_of globals.new.items ≡ with_names_at «module» (λ names.
        names) (map names_of globals.old.items)) }
    ensures room { OnOk result («module» < length globals.new.items) }
{
    while globals.len() <= module {
        globals.push(Globals::new(alloc))?;
    }
    Ok(())
}

/// Takes the first such number away.
fn forget(numbers: &mut Vec<u32>, number: u32)
    ensures { numbers.new.items ≡ without_number number numbers.old.items }
{
    let mut place = 0;
    while place < numbers.len() {
        if numbers[place] == number {
            numbers.remove(place);
            return;
        }
        place += 1;
    }
}

/// The globals of modules, none of which is set, and where the names of their units stand among
/// them.
fn no_globals(
    alloc: Alloc,
    modules: &[Program],
    links: &mut Links,
) -> Result<Vec<Globals>, NoMemory>
    ensures { IfOk result (λ globals.
        map names_of globals.items ≡ map no_names (map module_of modules.now)) }
{
    let mut globals = Vec::with_capacity(alloc, modules.len())?;
    for program in modules {
        let mut table = Table::new(alloc);
        links
            .modules
            .push(table.add_units(alloc, program.code.units())?)?;
        globals.push(table.globals(alloc)?)?;
    }
    Ok(globals)
}

/// Words as values.
fn word_values(alloc: Alloc, words: &[String]) -> Result<Vec<Value>, NoMemory>
    ensures { IfOk result (λ values. plains values.items ≡ map str_value (words_of words.now)) }
{
    let mut values = Vec::with_capacity(alloc, words.len())?;
    for word in words {
        values.push(Value::Str(Text::from_str(alloc, word.as_str())?))?;
    }
    Ok(values)
}

fn copy_globals(alloc: Alloc, globals: &[Globals]) -> Result<Vec<Globals>, NoMemory>
    ensures { IfOk result (λ copies. map names_of copies.items ≡ map names_of globals.now) }
{
    let mut copies = Vec::with_capacity(alloc, globals.len())?;
    for names in globals {
        copies.push(names.copy(alloc)?)?;
    }
    Ok(copies)
}

fn copy_numbers(alloc: Alloc, numbers: &[u32]) -> Result<Vec<u32>, NoMemory>
    ensures { IfOk result (λ copies. copies.items ≡ numbers.now) }
{
    numbers.iter().copied().collect(alloc)
}
