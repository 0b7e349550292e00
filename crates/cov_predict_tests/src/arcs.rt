// Places in a set of arcs.

use cov_predict::ArcSet;
use std::alloc::Global;
use std::test::Fail;

/// The arcs of a loop on one line after another line, in no order, and one of them twice.
fn one_line_loop(alloc: Global) -> Result<ArcSet, Fail> {
    Ok(ArcSet::new(vec![in alloc; (2, 2), (1, 2), (-1, 1), (2, -1), (1, 2)]?))
}

#[test]
fn places_are_in_order(rt: HostRuntime) -> Result<(), Fail> {
    let arcs = one_line_loop(rt.alloc())?;
    assert_eq!(rt; arcs.len(), 4);
    let order = [(-1, 1), (1, 2), (2, -1), (2, 2)];
    for (i, arc) in order.iter().enumerate() {
        assert!(rt; arcs.place(arc.0, arc.1) == Some(i as u64), "place {i}");
        assert!(rt; arcs.has(arc.0, arc.1), "arc {i}");
    }
    assert!(rt; arcs.place(1, 1) == None, "no place");
    assert!(rt; !arcs.has(2, 1), "not there");
    Ok(())
}

#[test]
fn a_copy_has_the_same_arcs(rt: HostRuntime) -> Result<(), Fail> {
    let arcs = one_line_loop(rt.alloc())?;
    let copy = arcs.copy()?;
    assert_eq!(rt; copy.len(), 4);
    if copy.len() == 4 {
        assert!(rt; copy.at(0) == (-1, 1), "the first");
        assert!(rt; copy.at(3) == (2, 2), "the last");
    }
    Ok(())
}
