// What is found in a module.

ghost use Rattle.std.specs.Prelude.{◌≡◌, OnOk, IfOk};
ghost use Rattle.py_syntax.specs.View.{plain_stmts};
ghost use Rattle.py_scope.specs.Faults.{nothing, blame, in_module, in_function, ◌&◌};
ghost use Rattle.py_scope.specs.Occurrences.{occurrences};
ghost use Rattle.py_scope.specs.Seen.{after, starting};

use crate::body::Body;
use crate::error::ScopeError;
use crate::occurrences::statements;
use crate::scopes::FunctionNames;
use py_syntax::Stmt;
use py_text::{NoMemory, Text};
use std::alloc::Global;
use std::marker::Model;

/// The faults so far, and the names of the functions so far.
#[derive(Drop)]
pub(crate) struct Report {
    pub faults: Vec<ScopeError>,
    pub functions: Vec<FunctionNames>,
}

impl Model for Report {
    ghost use Rattle.py_scope.specs.Faults.{Findings};

    ghost Value = { Findings };

    ghost view = { λ r. record { faults = r.faults.items; functions = r.functions.items } };
}

impl Report {
    pub(crate) fn new(alloc: Global) -> Report
        ensures { result ≡ nothing }
    {
        Report {
            faults: Vec::new(alloc),
            functions: Vec::new(alloc),
        }
    }

    /// Notes the fault where the condition holds.
    pub(crate) fn blame(&mut self, holds: bool, fault: ScopeError) -> Result<(), NoMemory>
        ensures { OnOk result (self.new ≡ self.old & blame holds fault) }
    {
        if holds {
            self.faults.push(fault)?;
        }
        Ok(())
    }

    /// Notes the faults of the declarations of a module.
    pub(crate) fn declarations(&mut self, alloc: Global, body: &[Stmt]) -> Result<(), NoMemory>
        ensures { OnOk result (self.new ≡ self.old & in_module (plain_stmts body.now)) }
    {
        let Body {
            used: _,
            assigned: _,
            declared: _,
            mut late,
        } = body_of(alloc, &[], body)?;
        self.faults.append(&mut late)?;
        Ok(())
    }

    /// Notes the names of a function, and the faults of its declarations.
    pub(crate) fn function(
        &mut self,
        alloc: Global,
        params: &[Text],
        body: &[Stmt],
    ) -> Result<(), NoMemory>
        ensures { OnOk result (self.new ≡ self.old
            & in_function params.now (plain_stmts body.now)) }
    {
        let Body {
            used: _,
            assigned,
            declared,
            mut late,
        } = body_of(alloc, params, body)?;
        self.faults.append(&mut late)?;
        self.functions.push(FunctionNames {
            assigned,
            globals: declared,
        })?;
        Ok(())
    }
}

/// The names that occur in the body of a function with these parameters, or of a module, which has
/// none.
fn body_of(alloc: Global, params: &[Text], body: &[Stmt]) -> Result<Body, NoMemory>
    ensures { IfOk result (λ b. b
        ≡ after (starting params.now) (occurrences (plain_stmts body.now))) }
{
    let mut seen = Body::new(alloc, params)?;
    let mut occurrences = Vec::new(alloc);
    statements(&mut occurrences, body)?;
    seen.take_all(alloc, &occurrences)?;
    Ok(seen)
}
