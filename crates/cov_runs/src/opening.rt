// A program that is loaded.
ghost use Rattle.std.specs.Prelude.{◌≡◌, IfOk};
ghost use Rattle.std.specs.Str.{chars};
ghost use Rattle.cov_hook.specs.View.{path_of};
ghost use Rattle.cov_loaded_laws.specs.Loaded.{IsMeasurable};
ghost use Rattle.cov_programs.specs.Ends.{Follows};
ghost use Rattle.cov_run.specs.Loads.{IsCompiled, loaded_modules};
ghost use Rattle.cov_step.specs.Calls.{IsNoMemory, seen};
ghost use Rattle.cov_step.specs.Objects.{on_shelf};
ghost use Rattle.cov_step.specs.Phases.{main_name, opened};
ghost use Rattle.cov_verdicts.specs.Regular.{AreRegular};

use cov_changes_laws::loaded_are_regular;
use cov_loaded_laws::{loaded_have_text_lines, loaded_programs_are_measured};
use cov_outside::Shelf;
use cov_run::{Loaded, load};
use cov_why::Why;
use std::alloc::Global;

/// The code of a script and of the modules that it imports, beside their trees.
pub(crate) fn opened<H: Shelf>(alloc: Global, script: &str, shelf: &mut H) -> Result<Loaded, Why>
    ensures follows { Follows (on_shelf H.Shelf) IsNoMemory (opened main_name script.now) shelf.old
        (seen loaded_modules result) shelf.new }
    ensures compiled { IfOk result IsCompiled }
    ensures measurable { IfOk result IsMeasurable }
    ensures script { IfOk result (λ l. path_of l.programs ≡ chars script.now) }
{
    opened_as(alloc, "__main__", script, shelf)
}

/// The code of a script, whose module has this name, and of the modules that it imports, beside
/// their trees.
pub fn opened_as<H: Shelf>(
    alloc: Global,
    name: &str,
    script: &str,
    shelf: &mut H,
) -> Result<Loaded, Why>
    ensures follows { Follows (on_shelf H.Shelf) IsNoMemory (opened (chars name.now) script.now)
        shelf.old (seen loaded_modules result) shelf.new }
    ensures compiled { IfOk result IsCompiled }
    ensures measurable { IfOk result IsMeasurable }
    ensures script { IfOk result (λ l. path_of l.programs ≡ chars script.now) }
    ensures regular { IfOk result (λ l. AreRegular (loaded_modules l)) }
{
    loaded_have_text_lines::<H>();
    loaded_programs_are_measured();
    loaded_are_regular::<H>();
    load(alloc, script, name, shelf)
}
