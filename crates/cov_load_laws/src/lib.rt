//! Laws of what reading and loading answer: that it is one thing, and that no program is refused
//! which can be loaded. But for `load_whole` the functions below do nothing, and each stands for
//! the laws that its contract states.
#![tactic(auto)]

ghost use Rattle.std.specs.Prelude.{List, IfErr, IsErrOf};
ghost use Rattle.std.specs.Str.{chars};
ghost use Rattle.cov_outside.specs.Counts.{Rose};
ghost use Rattle.py_meaning.specs.Modules.{LoadedModule};
ghost use Rattle.cov_run.specs.Loading.{IsLoaded, told_by};
ghost use Rattle.cov_load_laws.specs.Answers.{AnswersProgram, IsProgramOf, IsStarvedOrFailed};
ghost use Rattle.cov_load_laws.specs.Completeness.{CanLoad, Completes, IsNeeded};
ghost use Rattle.cov_load_laws.specs.Example.{EmptyLoads};
ghost use Rattle.cov_load_laws.specs.Faults.{NoneFirst, OneFirst};
ghost use Rattle.cov_load_laws.specs.Loadings.{NotStopped, OneLoading};
ghost use Rattle.cov_load_laws.specs.Next.{FailingLoads, OneNext};
ghost use Rattle.cov_load_laws.specs.Outcomes.{OneAnswer, OneOutcome, RefusedByOutcome};
ghost use Rattle.cov_load_laws.specs.Parsing.{NotRefused, OneRefusal};
ghost use Rattle.cov_load_laws.specs.Readings.{HasOneTree, OneReading, ReadsTree};
ghost use Rattle.cov_load_laws.specs.Shelves.{LoadsWhole, OneLoads};
ghost use Rattle.cov_load_laws.specs.Texts.{OneText};

use cov_outside::Shelf;
use cov_run::{Loaded, load};
use cov_why::Why;
use py_parse::one_tree;
use py_token::one_spelling;
use std::alloc::Global;

/// A list of tokens is refused for one reason and in one line, and not at all where it spells a
/// module within both limits.
pub fn one_refusal()
    ensures not_refused { NotRefused }
    ensures one { OneRefusal }
{}

/// One fault of a module at most is answered, and none of a well-formed one.
pub fn one_first()
    ensures one { OneFirst }
    ensures none { NoneFirst }
{}

/// A text has one list of tokens or one fault, and tokens have one tree.
fn one_text()
    ensures { OneText }
{
    one_spelling();
    one_tree();
}

/// The bytes of a source are read in one way, want of memory apart, and have one tree at most. A
/// short text whose tokens are those of a well-formed module within the limits is read as that
/// module.
pub fn one_reading()
    ensures one { OneReading }
    ensures one_tree { HasOneTree }
    ensures tree { ReadsTree }
{
    one_text();
}

/// A file comes to one thing after the modules before it, want of memory apart. It is refused
/// exactly by what it comes to, and so in one way at most.
pub fn one_outcome()
    ensures one { OneOutcome }
    ensures refused { RefusedByOutcome }
    ensures one_answer { OneAnswer }
{
    one_text();
}

/// Loading comes to one thing by what was told of the files, want of memory and faults of the shelf
/// apart. So no program is both loaded and refused.
pub fn one_loading()
    ensures one { OneLoading }
    ensures not_stopped { NotStopped }
{
    one_text();
}

/// Where the script is there, it and each file that is wanted can be read, and no count passes its
/// limit, a program is loaded, and loading comes to it or was cut short. The premises hold of each
/// program that is loaded.
pub fn completes()
    ensures completes { Completes }
    ensures needed { IsNeeded }
{
    one_text();
}

/// Of any shelf, reads that were answered alike come to one thing; and where contents that agree
/// with the answers can be loaded, loading comes to them or was cut short.
pub fn one_loads<H: Shelf>()
    ensures one { OneLoads H.reads }
    ensures whole { LoadsWhole H.reads }
{
    one_text();
}

/// One file at most is asked for next.
pub fn one_next()
    ensures { OneNext }
{
    one_text();
}

/// A failed read of the file that is asked for next is all that loading says of such a fault.
pub fn failing_loads<H: Shelf>()
    ensures { FailingLoads H.reads }
{}

/// Where a program can be loaded, the answer is that program, or want of memory or a fault of the
/// shelf.
pub fn answers_program()
    ensures { AnswersProgram }
{
    one_text();
}

/// An empty script can be loaded.
pub fn empty_loads()
    ensures { EmptyLoads }
{}

/// Loads a program as `load` of `cov_run` does. Where the shelf tells its files and a program of
/// them can be loaded, the answer is that program, or want of memory or a fault of the shelf.
pub fn load_whole<H: Shelf>(
    alloc: Global,
    script: &str,
    name: &str,
    shelf: &mut H,
) -> Result<Loaded, Why>
    ensures whole { H.tells → (ms : List LoadedModule)
        → IsLoaded (told_by (H.files shelf.old) (chars script.now)) (chars script.now)
        (chars name.now) ms → IsProgramOf ms result }
    ensures enough { H.tells → CanLoad (told_by (H.files shelf.old) (chars script.now))
        (chars script.now) (chars name.now) → IfErr result (λ w. IsStarvedOrFailed w) }
    ensures fault { IsErrOf result Why.ShelfFault
        → Rose (H.faults shelf.old) (H.faults shelf.new) }
{
    answers_program();
    completes();
    load(alloc, script, name, shelf)
}
