// Where a pattern stands.

ghost use Rattle.std.specs.Prelude.{◌≡◌, ◌+◌, IfOk};
ghost use Rattle.py_compile_expr.specs.CellView.{plain_site};
ghost use Rattle.py_compile_expr.specs.Patterns.{with_waiting, with_captured};

use crate::cells::{Guard, sum};
use py_text::NoMemory;

/// Where a pattern stands: the handler, how many values wait below its value, and where a failed
/// match goes on, with how many operands less, after the value itself.
#[derive(Clone, Copy)]
pub struct Site {
    pub guard: Option<Guard>,
    pub waiting: u32,
    pub fail: u32,
    pub extra: u32,
}

/// The site with so many more values that wait.
pub(crate) fn with_waiting(count: u32, site: Site) -> Result<Site, NoMemory>
    ensures { IfOk result (λ s. plain_site s ≡ with_waiting count (plain_site site)) }
{
    let waiting = sum(count, site.waiting)?;
    let extra = sum(count, site.extra)?;
    Ok(Site {
        guard: site.guard,
        waiting,
        fail: site.fail,
        extra,
    })
}

/// The site with so many captured values.
pub(crate) fn with_captured(count: u32, site: Site) -> Result<Site, NoMemory>
    ensures { IfOk result (λ s. plain_site s ≡ with_captured count (plain_site site)) }
{
    let extra = sum(count, site.extra)?;
    Ok(Site {
        guard: site.guard,
        waiting: site.waiting,
        fail: site.fail,
        extra,
    })
}
