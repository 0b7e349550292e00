//! The paths that are reported.
ghost use Rattle.std.specs.Prelude.{◌≡◌, ◌∷◌, ◌++◌, [], if◌then◌else◌, filter, map, string_bytes, IfOk, OnOk};
ghost use Rattle.cov_data.specs.Rows.{paths_of};
ghost use Rattle.cov_programs.specs.Ends.{Follows};
ghost use Rattle.cov_programs.specs.Objects.{nobody};
ghost use Rattle.cov_step.specs.Calls.{Call, Answer, IsNoMemory, seen};
ghost use Rattle.cov_step.specs.Phases.{is_reported, reported_paths, some_path};

use cov_config::is_omitted;
use cov_data::Data;
use cov_why::Why;
use py_text::NoMemory;
use std::alloc::Global;

/// The paths of the data of a name that no pattern of `omit` omits, in byte order.
pub(crate) fn reported_paths(
    alloc: Global,
    name: &str,
    omit: &[String],
    recorded: &Data,
) -> Result<Vec<String>, Why>
    ensures { Follows (nobody Call Answer) IsNoMemory
        (reported_paths name.now (map string_bytes omit.now) recorded.now) tt
        (seen (λ paths. map string_bytes paths.items) result) tt }
{
    match kept_paths(alloc, omit, recorded) {
        Ok(paths) => some_path(alloc, name, paths),
        Err(_) => Err(Why::NoMemory),
    }
}

/// Data without a path to report are none.
fn some_path(alloc: Global, name: &str, paths: Vec<String>) -> Result<Vec<String>, Why>
    ensures { Follows (nobody Call Answer) IsNoMemory
        (some_path name.now (map string_bytes paths.items)) tt
        (seen (λ paths. map string_bytes paths.items) result) tt }
{
    if paths.is_empty() {
        return match String::from_str(alloc, name) {
            Ok(name) => Err(Why::NoData(name)),
            Err(_) => Err(Why::NoMemory),
        };
    }
    Ok(paths)
}

fn kept_paths(alloc: Global, omit: &[String], recorded: &Data) -> Result<Vec<String>, NoMemory>
    ensures { IfOk result (λ paths. map string_bytes paths.items
        ≡ filter (is_reported (map string_bytes omit.now)) (paths_of recorded.now)) }
{
    let all = recorded.paths()?;
    let mut paths = Vec::new(alloc);
    for path in all {
        let kept = is_kept(alloc, omit, path.as_str())?;
        push_if(&mut paths, kept, path)?;
    }
    Ok(paths)
}

fn is_kept(alloc: Global, omit: &[String], path: &str) -> Result<bool, NoMemory>
    ensures { IfOk result (λ kept. kept ≡ is_reported (map string_bytes omit.now) path.now) }
{
    let omitted = is_omitted(alloc, omit, path)?;
    Ok(!omitted)
}

fn push_if(paths: &mut Vec<String>, passes: bool, path: String) -> Result<(), NoMemory>
    ensures { OnOk result (map string_bytes paths.new.items
        ≡ map string_bytes paths.old.items ++ (if passes then string_bytes path ∷ [] else [])) }
{
    if passes {
        paths.push(path)?;
    }
    Ok(())
}
