// Counters become rows of data.
ghost use Rattle.std.specs.Prelude.{◌≡◌, ◌<◌, length, map, IfOk, OnOk};
ghost use Rattle.cov_data.specs.DataSet.{IsInRange};
ghost use Rattle.cov_data.specs.Rows.{row_view};
ghost use Rattle.cov_recorder.specs.Plan.{plan_with};
ghost use Rattle.cov_recorder.specs.Names.{names_of};
ghost use Rattle.cov_recorder.specs.Rows.{row_from, row_of_count, with_count, with_counts, with_counters, with_rows, AreInRange, IsSoundRow, AreSound};

use crate::context::joined;
use crate::names::UnitName;
use crate::rows::Counters;
use crate::units::path_at;
use cov_data::{Data, Row};
use cov_predict::ArcSet;
use py_text::NoMemory;
use std::alloc::Global;

/// Adds the rows of rows of counters.
pub(crate) fn add_rows(
    alloc: Global,
    units: &[Vec<UnitName>],
    sets: &[ArcSet],
    fixed: &str,
    rows: &[Counters],
    data: &mut Data,
) -> Result<(), NoMemory>
    requires { AreSound (plan_with (names_of units.now) sets.now data.old.arcs fixed.now)
        (map row_from rows.now) }
    ensures { OnOk result (data.new
        ≡ with_rows (plan_with (names_of units.now) sets.now data.old.arcs fixed.now)
        (map row_from rows.now) data.old) }
{
    for row in rows {
        add_row(alloc, units, sets, fixed, row, data)?;
    }
    Ok(())
}

/// Adds the rows of a row of counters.
fn add_row(
    alloc: Global,
    units: &[Vec<UnitName>],
    sets: &[ArcSet],
    fixed: &str,
    row: &Counters,
    data: &mut Data,
) -> Result<(), NoMemory>
    requires { IsSoundRow (plan_with (names_of units.now) sets.now data.old.arcs fixed.now)
        (row_from row.now) }
    ensures { OnOk result (data.new
        ≡ with_counters (plan_with (names_of units.now) sets.now data.old.arcs fixed.now)
        (row_from row.now) data.old) }
{
    match sets.get(row.module as usize) {
        Some(set) => {
            let path = path_at(units, row.module);
            let context = joined(alloc, fixed, row.label.as_str())?;
            add_counts(
                alloc,
                path,
                context.as_str(),
                set,
                row.counts.as_slice(),
                data,
            )
        }
        None => Ok(()),
    }
}

/// Adds the rows of the counts of these arcs.
fn add_counts(
    alloc: Global,
    path: &str,
    context: &str,
    set: &ArcSet,
    counts: &[u32],
    data: &mut Data,
) -> Result<(), NoMemory>
    requires size { length counts.now ≡ length set.now }
    requires range { AreInRange data.old.arcs set.now counts.now }
    ensures { OnOk result (data.new
        ≡ with_counts path.now context.now set.now counts.now data.old) }
{
    for (place, count) in counts.iter().enumerate() {
        add_count(alloc, path, context, set.at(place as u64), *count, data)?;
    }
    Ok(())
}

/// Adds the row of an arc. Without a count it has none.
fn add_count(
    alloc: Global,
    path: &str,
    context: &str,
    arc: (i32, i32),
    count: u32,
    data: &mut Data,
) -> Result<(), NoMemory>
    requires { 0 < count → IsInRange data.old.arcs arc.0 arc.1 1 }
    ensures { OnOk result (data.new ≡ with_count path.now context.now arc count data.old) }
{
    if count == 0 {
        return Ok(());
    }
    data.add(row_of_count(alloc, path, context, arc, count)?)
}

fn row_of_count(
    alloc: Global,
    path: &str,
    context: &str,
    arc: (i32, i32),
    count: u32,
) -> Result<Row, NoMemory>
    ensures { IfOk result (λ row. row_view row ≡ row_of_count path.now context.now arc count) }
{
    let path = String::from_str(alloc, path)?;
    let context = String::from_str(alloc, context)?;
    Ok(Row {
        path,
        context,
        from: arc.0,
        to: arc.1,
        count,
    })
}
