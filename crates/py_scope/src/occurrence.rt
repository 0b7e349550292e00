// Occurrences of names.

ghost use Rattle.std.specs.Prelude.{◌≡◌, [], ◌∷◌, ◌++◌, OnOk};
ghost use Rattle.py_scope.specs.declared.occurrence.Occurrence.TheVariants.{Uses, Assigns};
ghost use Rattle.py_scope.specs.declared.occurrence.Occurrence.TheVariants.{Declares};

use py_text::{NoMemory, Text};

/// An occurrence of a name in a body, as the definitions of the faults speak of it.
#[derive(Drop)]
pub enum Occurrence {
    /// Its value is taken.
    Uses(Text),
    /// It is set, imported or defined.
    Assigns(Text),
    /// In a `global` statement that begins on the line.
    Declares(Text, u32),
}

pub(crate) fn push_use(out: &mut Vec<Occurrence>, x: &Text) -> Result<(), NoMemory>
    ensures { OnOk result (out.new.items ≡ out.old.items ++ Uses x.now ∷ []) }
{
    let name = x.copy()?;
    out.push(Occurrence::Uses(name))?;
    Ok(())
}

pub(crate) fn push_assigned(out: &mut Vec<Occurrence>, x: &Text) -> Result<(), NoMemory>
    ensures { OnOk result (out.new.items ≡ out.old.items ++ Assigns x.now ∷ []) }
{
    let name = x.copy()?;
    out.push(Occurrence::Assigns(name))?;
    Ok(())
}

pub(crate) fn push_declared(out: &mut Vec<Occurrence>, x: &Text, line: u32) -> Result<(), NoMemory>
    ensures { OnOk result (out.new.items ≡ out.old.items ++ Declares x.now line ∷ []) }
{
    let name = x.copy()?;
    out.push(Occurrence::Declares(name, line))?;
    Ok(())
}
