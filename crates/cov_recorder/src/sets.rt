// What has a counter in a module.
ghost use Rattle.std.specs.Prelude.{◌≡◌, ◌<◌, ◌^◌, max, IfOk};
ghost use Rattle.cov_recorder.specs.Plan.{line_of, greatest, lines_to, counted};

use cov_predict::ArcSet;
use py_text::NoMemory;
use std::alloc::Global;

/// Each arc of the set. In line data each line up to the greatest number in the set, which stands
/// in both numbers of an arc.
pub(crate) fn counted(alloc: Global, arcs: bool, set: ArcSet) -> Result<ArcSet, NoMemory>
    ensures { IfOk result (λ lines. lines ≡ counted arcs set) }
{
    if arcs {
        return Ok(set);
    }
    lines_to(alloc, greatest(&set))
}

fn lines_to(alloc: Global, last: u32) -> Result<ArcSet, NoMemory>
    requires { last < 2 ^ 31 }
    ensures { IfOk result (λ lines. lines ≡ lines_to last) }
{
    let mut lines = Vec::new(alloc);
    for before in 0..last {
        let line = (before + 1) as i32;
        lines.push((line, line))?;
    }
    Ok(ArcSet::new(lines))
}

fn greatest(set: &ArcSet) -> u32
    ensures value { result ≡ greatest set.now }
    ensures small { result < 2 ^ 31 }
{
    let mut most: u32 = 0;
    for place in 0..set.len() {
        most = most.max(greater_line(set.at(place)));
    }
    most
}

fn greater_line(arc: (i32, i32)) -> u32
    ensures value { result ≡ max (line_of arc.0) (line_of arc.1) }
    ensures small { result < 2 ^ 31 }
{
    line_of(arc.0).max(line_of(arc.1))
}

fn line_of(number: i32) -> u32
    ensures value { result ≡ line_of number }
    ensures small { result < 2 ^ 31 }
{
    if number > 0 { number as u32 } else { 0 }
}
