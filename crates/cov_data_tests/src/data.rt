use crate::sets::{data_of, shown};
use cov_data::{DataError, has_line, lines_of_numbits, numbits_of};
use std::alloc::{AllocError, Global};
use std::test::Fail;

fn united(alloc: Global, mine: &str, other: &str) -> Result<String, AllocError> {
    let mut all = data_of(alloc, true, mine)?;
    let other = data_of(alloc, true, other)?;
    if all.union(&other).is_err() {
        return String::from_str(alloc, "refused");
    }
    shown(alloc, &all)
}

/// Two data of arcs, and the two as one.
static UNIONS: [(&str, &str, &str, &str); 6] = [
    ("Nothing", "", "", ""),
    (
        "Rows in order",
        "b . 1 2 1;a x 2 -1 1;a x -1 2 1;B . 9 1 1",
        "a . 3 4 1",
        "B . 9 1 1;a . 3 4 1;a x -1 2 1;a x 2 -1 1;b . 1 2 1;",
    ),
    (
        "A row three times",
        "a . 1 2 5;a . 1 2 7",
        "a . 1 2 1",
        "a . 1 2 13;",
    ),
    (
        "The greatest count",
        "a . 1 2 4294967295",
        "a . 1 2 1",
        "a . 1 2 4294967295;",
    ),
    (
        "Paths without a row, and two contexts",
        "a;b . 1 2 1",
        "c;b x 1 2 1",
        "a;c;b . 1 2 1;b x 1 2 1;",
    ),
    (
        "Rows out of range",
        "a . 0 2 1;a . 1 65536 1",
        "a . -65536 2 1;a . 1 2 0",
        "",
    ),
];

#[test]
fn rows_add_up_in_order(rt: HostRuntime) -> Result<(), Fail> {
    for (title, mine, other, wanted) in &UNIONS {
        let text = united(rt.alloc(), *mine, *other)?;
        assert_eq!(rt; text.as_str(), *wanted, "{title}");
    }
    Ok(())
}

fn lists(alloc: Global, arcs: bool, given: &str) -> Result<String, AllocError> {
    let data = data_of(alloc, arcs, given)?;
    let lines = data.lines("a")?;
    let pairs = data.arcs("a")?;
    format!(in alloc; "{:?} {:?}", lines.as_slice(), pairs.as_slice())
}

/// Data, of arcs or not, and the lines and arcs of the path `a`.
static LISTS: [(&str, bool, &str, &str); 3] = [
    (
        "Arcs in three contexts",
        true,
        "a x -1 3 1;a . 3 2 1;a y -1 3 1;b . 7 8 2",
        "[2, 3] [(-1, 3), (3, 2)]",
    ),
    ("A path without a row", true, "b . 7 8 2;a", "[] []"),
    (
        "A line, and rows that are none",
        false,
        "a . 4 4 1;a . 4 5 1;a . -4 -4 1",
        "[4] []",
    ),
];

#[test]
fn lists_of_a_path(rt: HostRuntime) -> Result<(), Fail> {
    for (title, arcs, given, wanted) in &LISTS {
        let text = lists(rt.alloc(), *arcs, *given)?;
        assert_eq!(rt; text.as_str(), *wanted, "{title}");
    }
    Ok(())
}

/// What `mine` holds after line data were refused, with one path of other arc data added.
fn refused(alloc: Global, mine: &str, other: &str) -> Result<String, AllocError> {
    let mut arcs = data_of(alloc, true, mine)?;
    let other = data_of(alloc, false, other)?;
    let refusal = arcs.union(&other);
    if refusal
        != Err(DataError::Mixed {
            mine: true,
            other: false,
        })
    {
        return shown(alloc, &arcs);
    }
    let more = data_of(alloc, true, "b . 7 8 2")?;
    if more.is_arcs() != arcs.is_arcs() {
        return shown(alloc, &arcs);
    }
    shown(alloc, &arcs.with_file("n", &more, "b")?)
}

#[test]
fn arcs_and_lines_are_not_mixed(rt: HostRuntime) -> Result<(), Fail> {
    let text = refused(rt.alloc(), "a . 1 2 1;b", "a . 4 4 1")?;
    assert_eq!(rt; text.as_str(), "b;a . 1 2 1;n . 7 8 2;");
    Ok(())
}

#[test]
fn lines_in_bits(rt: HostRuntime) -> Result<(), Fail> {
    let alloc = rt.alloc();
    assert_eq!(rt;
        numbits_of(alloc, &[9, 1, 8, 1])?.as_slice(),
        [0x02, 0x03].as_slice()
    );
    assert_eq!(rt; numbits_of(alloc, &[])?.len(), 0);
    assert_eq!(rt;
        lines_of_numbits(alloc, &[0x02, 0x03])?.as_slice(),
        [1, 8, 9].as_slice()
    );
    assert!(rt; has_line(&[0x02, 0x03], 9) && !has_line(&[0x02, 0x03], 10));
    assert!(rt; !has_line(&[0x02, 0x03], 65_535));
    Ok(())
}
