//! The lines of each file in each context, as bits.
ghost use Rattle.std.specs.Prelude.{◌≡◌, ◌++◌, ◌∷◌, List, map, IfOk, OnOk};
ghost use Rattle.std.specs.List.{AllZip};
ghost use Rattle.cov_sql.specs.Blobs.{AreBitsOf};
ghost use Rattle.cov_sql.specs.Groups.{line_in, group_view, is_of, one_line, with_line, groups_from, groups, IsBlobOf, AreLines};

use crate::saved::{SavedBits, SavedRow};
use cov_data::{MOST_NUMBER, numbits_of};
use std::alloc::{AllocError, Global};

/// The lines of one file in one context.
#[derive(Drop)]
pub(crate) struct Group {
    pub(crate) file_id: i64,
    pub(crate) context_id: i64,
    pub(crate) lines: Vec<u32>,
}

/// The line in a number, and 0 where it has none.
fn line_in(number: i64) -> u32
    ensures { result ≡ line_in number }
{
    if 0 <= number && number <= MOST_NUMBER as i64 {
        number as u32
    } else {
        0
    }
}

impl Group {
    fn of(alloc: Global, row: &SavedRow) -> Result<Group, AllocError>
        ensures { IfOk result (λ group. group_view group ≡ one_line row.now) }
    {
        let mut lines = Vec::new(alloc);
        lines.push(line_in(row.from))?;
        Ok(Group {
            file_id: row.file_id,
            context_id: row.context_id,
            lines,
        })
    }

    fn is_of(&self, row: &SavedRow) -> bool
        ensures { result ≡ is_of (group_view self.now) row.now }
    {
        self.file_id == row.file_id && self.context_id == row.context_id
    }

    fn add(&mut self, row: &SavedRow) -> Result<(), AllocError>
        ensures { OnOk result (group_view self.new ≡ with_line (group_view self.old) row.now) }
    {
        self.lines.push(line_in(row.from))?;
        Ok(())
    }
}

/// The group that a row belongs to. One of another file or context goes to those that are done.
fn taken(
    alloc: Global,
    done: &mut Vec<Group>,
    mut group: Group,
    row: &SavedRow,
) -> Result<Group, AllocError>
    ensures { IfOk result (λ next.
        (rows : List SavedRow)
        → map group_view done.new.items ++ groups_from (group_view next) rows
        ≡ map group_view done.old.items ++ groups_from (group_view group) (row.now ∷ rows)) }
{
    if group.is_of(row) {
        group.add(row)?;
        return Ok(group);
    }
    done.push(group)?;
    Group::of(alloc, row)
}

/// The rows in groups, where those of one file and one context stand side by side.
fn groups_of(alloc: Global, rows: &[SavedRow]) -> Result<Vec<Group>, AllocError>
    ensures { IfOk result (λ all. map group_view all.items ≡ groups rows.now) }
{
    let mut done = Vec::new(alloc);
    let Some((first, others)) = rows.split_first() else {
        return Ok(done);
    };
    let mut group = Group::of(alloc, first)?;
    for row in others {
        group = taken(alloc, &mut done, group, row)?;
    }
    done.push(group)?;
    Ok(done)
}

fn blob_of(alloc: Global, group: &Group) -> Result<SavedBits, AllocError>
    ensures { IfOk result (IsBlobOf group.now) }
{
    Ok(SavedBits {
        file_id: group.file_id,
        context_id: group.context_id,
        numbits: numbits_of(alloc, &group.lines)?,
    })
}

fn blobs_of(alloc: Global, groups: &[Group]) -> Result<Vec<SavedBits>, AllocError>
    ensures { IfOk result (λ blobs. AllZip IsBlobOf groups.now blobs.items) }
{
    let mut blobs = Vec::new(alloc);
    for group in groups {
        blobs.push(blob_of(alloc, group)?)?;
    }
    Ok(blobs)
}

/// The lines of each file in each context, where rows of both stand side by side.
pub(crate) fn bits_of(alloc: Global, rows: &[SavedRow]) -> Result<Vec<SavedBits>, AllocError>
    ensures { AreLines rows.now → IfOk result (λ blobs. AreBitsOf rows.now blobs.items) }
{
    let groups = groups_of(alloc, rows)?;
    blobs_of(alloc, &groups)
}
