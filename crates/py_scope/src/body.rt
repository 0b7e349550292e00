// The names that a body of a module or a function uses, assigns and declares.

ghost use Rattle.std.specs.Prelude.{◌≡◌, OnOk, IfOk};
ghost use Rattle.py_syntax.specs.Names.{add_names};
ghost use Rattle.py_scope.specs.Seen.{after, after_one, starting};

use crate::error::ScopeError;
use crate::names::NameSet;
use crate::occurrence::Occurrence;
use py_text::{NoMemory, Text};
use std::alloc::Global;
use std::marker::Model;

/// The names that occurred so far.
#[derive(Drop)]
pub(crate) struct Body {
    pub used: NameSet,
    pub assigned: NameSet,
    pub declared: NameSet,
    /// The faults of those that were declared after they were used.
    pub late: Vec<ScopeError>,
}

impl Model for Body {
    ghost use Rattle.py_scope.specs.Seen.{Seen};

    ghost Value = { Seen };

    ghost view = { λ b. record {
      used = b.used;
      assigned = b.assigned;
      declared = b.declared;
      late = b.late.items;
    } };
}

impl Body {
    /// The body of a function with these parameters, at its start.
    pub(crate) fn new(alloc: Global, params: &[Text]) -> Result<Body, NoMemory>
        ensures { IfOk result (λ b. b ≡ starting params.now) }
    {
        let mut used = NameSet::new(alloc);
        let mut assigned = NameSet::new(alloc);
        add_all(alloc, &mut used, params)?;
        add_all(alloc, &mut assigned, params)?;
        Ok(Body {
            used,
            assigned,
            declared: NameSet::new(alloc),
            late: Vec::new(alloc),
        })
    }

    /// Takes these occurrences in turn.
    pub(crate) fn take_all(
        &mut self,
        alloc: Global,
        occurrences: &[Occurrence],
    ) -> Result<(), NoMemory>
        ensures { OnOk result (self.new ≡ after self.old occurrences.now) }
    {
        for occurrence in occurrences {
            self.take(alloc, occurrence)?;
        }
        Ok(())
    }

    fn take(&mut self, alloc: Global, occurrence: &Occurrence) -> Result<(), NoMemory>
        ensures { OnOk result (self.new ≡ after_one self.old occurrence.now) }
    {
        match occurrence {
            Occurrence::Uses(name) => {
                self.used.insert(alloc, name)?;
                Ok(())
            }
            Occurrence::Assigns(name) => {
                self.used.insert(alloc, name)?;
                self.assigned.insert(alloc, name)?;
                Ok(())
            }
            Occurrence::Declares(name, line) => {
                if self.used.contains(name) {
                    self.late.push(ScopeError::GlobalAfterUse(*line))?;
                }
                self.declared.insert(alloc, name)?;
                Ok(())
            }
        }
    }
}

fn add_all(alloc: Global, set: &mut NameSet, names: &[Text]) -> Result<(), NoMemory>
    ensures { OnOk result (set.new ≡ add_names set.old names.now) }
{
    for name in names {
        set.insert(alloc, name)?;
    }
    Ok(())
}
