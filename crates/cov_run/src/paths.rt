//! Where the files of modules lie.

ghost use Rattle.std.specs.Prelude.{◌≡◌, IfOk};
ghost use Rattle.std.specs.Str.{chars};
ghost use Rattle.py_meaning.specs.Loading.{file_of, folder_of};

use py_text::{NoMemory, Text};
use std::alloc::Global;

/// The folder of a file's name: what stands up to its last `/`, with that.
pub(crate) fn folder_of(alloc: Global, path: &str) -> Result<Text, NoMemory>
    ensures { IfOk result (λ folder. folder ≡ folder_of (chars path.now)) }
{
    let mut folder = Text::new(alloc);
    let mut part = Text::new(alloc);
    for c in path.chars() {
        part.push(c)?;
        if c == '/' {
            folder.append(&part)?;
            part = Text::new(alloc);
        }
    }
    Ok(folder)
}

/// The file of a module, in the folder.
pub(crate) fn file_of(folder: &Text, name: &Text) -> Result<Text, NoMemory>
    ensures { IfOk result (λ path. path ≡ file_of folder.now name.now) }
{
    let mut path = folder.copy()?;
    path.append(name)?;
    path.push_str(".py")?;
    Ok(path)
}
