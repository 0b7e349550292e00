// How a run ended, as a command answers it.
ghost use Rattle.std.specs.Prelude.{◌≡◌, string_bytes, IfOk};
ghost use Rattle.py_builtins.specs.Outcomes.{err_of, text_line, uncaught};
ghost use Rattle.py_machine.specs.Outcomes.{plain_outcome};
ghost use Rattle.cov_calls.specs.Views.{answered_view, ended_view};
ghost use Rattle.cov_step.specs.Phases.{answered_by, ended_by};

use cov_calls::{Answered, Ended};
use py_builtins::kind_name;
use py_machine::Outcome;
use py_value::{ExcKind, NoMemory, Text};
use std::alloc::Global;

/// The answer to an ending of a program, within a budget.
pub(crate) fn answered_by(
    alloc: Global,
    budget: u64,
    outcome: &Outcome,
) -> Result<Answered, NoMemory>
    ensures { IfOk result (λ a.
        answered_view a ≡ answered_by budget (plain_outcome outcome.now)) }
{
    let ending = err_of(alloc, outcome)?;
    let ended = ended_by(budget, outcome);
    Ok(Answered { ended, ending })
}

fn ended_by(budget: u64, outcome: &Outcome) -> Ended
    ensures { ended_view result ≡ ended_by budget (plain_outcome outcome.now) }
{
    match outcome {
        Outcome::Finished => Ended::Program(0),
        Outcome::Exited(status, _) => Ended::Program(*status),
        Outcome::Raised(..) => Ended::Program(1),
        Outcome::Cut => Ended::Budget(budget),
    }
}

/// The line of an uncaught exception, or the text of an exit; nothing for any other ending.
fn err_of(alloc: Global, outcome: &Outcome) -> Result<String, NoMemory>
    ensures { IfOk result (λ line. string_bytes line ≡ err_of (plain_outcome outcome.now)) }
{
    match outcome {
        Outcome::Finished => Ok(String::new(alloc)),
        Outcome::Exited(_, None) => Ok(String::new(alloc)),
        Outcome::Exited(_, Some(text)) => text_line(alloc, text),
        Outcome::Raised(kind, text) => uncaught_line(alloc, *kind, text),
        Outcome::Cut => Ok(String::new(alloc)),
    }
}

fn text_line(alloc: Global, text: &Text) -> Result<String, NoMemory>
    ensures { IfOk result (λ line. string_bytes line ≡ text_line text.now) }
{
    let text = text.as_str();
    format!(in alloc; "{text}\n")
}

fn uncaught_line(alloc: Global, kind: ExcKind, text: &Text) -> Result<String, NoMemory>
    ensures { IfOk result (λ line. string_bytes line ≡ text_line (uncaught kind text.now)) }
{
    let kind = kind_name(kind);
    if text.is_empty() {
        return format!(in alloc; "{kind}\n");
    }
    let text = text.as_str();
    format!(in alloc; "{kind}: {text}\n")
}
