// What a run is asked, and what was measured.
ghost use Rattle.std.specs.Prelude.{◌≡◌, IfOk};
ghost use Rattle.cov_measure.specs.Requests.{asked_in, words_in};

use cov_data::Data;
use py_machine::Outcome;
use py_text::NoMemory;
use std::alloc::Global;

/// A run that is measured: its script and the arguments after it, whether arcs or lines are
/// recorded, the static context, whether names of tests give labels, the file and the function of
/// its hook, and the steps that it may take.
#[derive(Drop)]
pub struct RunRequest {
    pub script: String,
    pub args: Vec<String>,
    pub arcs: bool,
    pub fixed: String,
    pub by_name: bool,
    pub hook: Option<(String, String)>,
    pub budget: u64,
}

/// What was measured.
#[derive(Drop)]
pub struct Measured {
    pub rows: Data,
    pub outcome: Outcome,
    pub steps: u64,
}

/// The words of the program: its script, and then its arguments.
pub(crate) fn words_of(alloc: Global, request: &RunRequest) -> Result<Vec<String>, NoMemory>
    ensures { IfOk result (λ words. words_in words.items ≡ (asked_in request.now).words) }
{
    let mut words = Vec::new(alloc);
    words.push(request.script.clone()?)?;
    words.extend_from_slice(&request.args)?;
    Ok(words)
}
