//! The text of the column `Missing`.
ghost use Rattle.std.specs.Prelude.{◌≡◌, ◌∷◌, [], map, string_bytes, IfOk, OnOk};
ghost use Rattle.std.specs.BTreeSet.{contains, insert_key};
ghost use Rattle.std.specs.Ordering.{nat_cmp};
ghost use Rattle.cov_analysis.specs.Analyses.{analysis_view};
ghost use Rattle.cov_text.specs.Missing.{missing_text, item_cmp, with_items, runs, run_items, range_items, goes_on, is_listed, end_text, branch_item, branch_items, joined};
ghost use Rattle.cov_text.specs.Stored.{items_of};

use crate::NoMemory;
use cov_analysis::{Analysis, line_set};
use std::alloc::Global;
use std::collections::BTreeSet;

/// The missing lines and branches of a file, in the order of their first lines.
pub(crate) fn missing_text(alloc: Global, file: &Analysis) -> Result<String, NoMemory>
    ensures { IfOk result (λ text. string_bytes text ≡ missing_text (analysis_view file.now)) }
{
    let missing = line_set(alloc, file.missing.as_slice())?;
    let mut items = BTreeSet::new(alloc);
    add_ranges(alloc, &mut items, file.statements.as_slice(), &missing)?;
    add_branches(
        alloc,
        &mut items,
        file.missing_branches.as_slice(),
        &missing,
    )?;
    joined(alloc, &items)
}

/// Adds the missing lines, as ranges with no other statement in them.
fn add_ranges(
    alloc: Global,
    items: &mut BTreeSet<(u32, String, i32)>,
    statements: &[u32],
    missing: &BTreeSet<u32>,
) -> Result<(), NoMemory>
    ensures { OnOk result (items_of items.new.keys
        ≡ with_items (items_of items.old.keys)
        (range_items (contains nat_cmp missing.now) statements.now)) }
{
    let all = runs(alloc, statements, missing)?;
    for run in &all {
        add_range(alloc, items, run)?;
    }
    Ok(())
}

fn runs<'s>(
    alloc: Global,
    statements: &'s [u32],
    missing: &BTreeSet<u32>,
) -> Result<Vec<&'s [u32]>, NoMemory>
    ensures { IfOk result (λ all. map (λ run. run.now) all.items
        ≡ runs (contains nat_cmp missing.now) statements.now) }
{
    statements
        .split(|line| !missing.contains(line))
        .collect(alloc)
}

fn add_range(
    alloc: Global,
    items: &mut BTreeSet<(u32, String, i32)>,
    run: &[u32],
) -> Result<(), NoMemory>
    ensures { OnOk result (items_of items.new.keys
        ≡ with_items (items_of items.old.keys) (run_items run.now)) }
{
    match run {
        [] => Ok(()),
        [line] => add(items, *line, format!(in alloc; "{line}")?, 0),
        [first, .., last] => add(items, *first, format!(in alloc; "{first}-{last}")?, 0),
    }
}

/// Adds the missing branches between lines that aren't missing.
fn add_branches(
    alloc: Global,
    items: &mut BTreeSet<(u32, String, i32)>,
    branches: &[(u32, i32)],
    missing: &BTreeSet<u32>,
) -> Result<(), NoMemory>
    ensures { OnOk result (items_of items.new.keys
        ≡ with_items (items_of items.old.keys)
        (branch_items (contains nat_cmp missing.now) branches.now)) }
{
    for branch in branches {
        add_branch(alloc, items, *branch, missing)?;
    }
    Ok(())
}

fn add_branch(
    alloc: Global,
    items: &mut BTreeSet<(u32, String, i32)>,
    branch: (u32, i32),
    missing: &BTreeSet<u32>,
) -> Result<(), NoMemory>
    ensures { OnOk result (items_of items.new.keys
        ≡ with_items (items_of items.old.keys)
        (branch_items (contains nat_cmp missing.now) (branch ∷ []))) }
{
    let (line, end) = branch;
    if missing.contains(&line) || !goes_on(missing, end) {
        return Ok(());
    }
    let text = end_text(alloc, end)?;
    add(items, line, format!(in alloc; "{line}->{text}")?, end)
}

fn goes_on(missing: &BTreeSet<u32>, end: i32) -> bool
    ensures { result ≡ goes_on (contains nat_cmp missing.now) end }
{
    match u32::try_from(end) {
        Ok(line) => !missing.contains(&line),
        Err(_) => true,
    }
}

fn end_text(alloc: Global, end: i32) -> Result<String, NoMemory>
    ensures { IfOk result (λ text. string_bytes text ≡ end_text end) }
{
    if end < 0 {
        return String::from_str(alloc, "exit");
    }
    format!(in alloc; "{end}")
}

fn add(
    items: &mut BTreeSet<(u32, String, i32)>,
    line: u32,
    text: String,
    end: i32,
) -> Result<(), NoMemory>
    ensures { OnOk result (items_of items.new.keys
        ≡ insert_key item_cmp (items_of items.old.keys) (line, string_bytes text, end)) }
{
    items.insert((line, text, end))?;
    Ok(())
}

/// The texts, with `, ` between them.
fn joined(alloc: Global, items: &BTreeSet<(u32, String, i32)>) -> Result<String, NoMemory>
    ensures { IfOk result (λ text. string_bytes text ≡ joined (items_of items.now.keys)) }
{
    let mut texts = Vec::new(alloc);
    for (_line, text, _end) in items {
        texts.push(text.as_str())?;
    }
    texts.join(alloc, ", ")
}
