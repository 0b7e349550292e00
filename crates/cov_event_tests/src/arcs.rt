// Events, and the arcs that they tell.

use cov_arcs::Arcs;
use cov_event::{CodeId, Event, Tracer};
use py_value::{ExcKind, NoMemory};
use std::alloc::Global;
use std::test::Fail;

/// The arcs of a module whose function begins in line 2.
fn arcs_after(alloc: Global, events: &[Event]) -> Result<Vec<(i64, i64)>, NoMemory> {
    let mut firsts = Vec::new(alloc);
    firsts.push(Vec::from_array(alloc, [1, 2])?)?;
    let mut arcs = Arcs::new(alloc, firsts)?;
    for event in events {
        arcs.event(alloc, event)?;
    }
    let mut listed = Vec::new(alloc);
    if let Some(set) = arcs.arcs_of(0) {
        for arc in set {
            listed.push(*arc)?;
        }
    }
    Ok(listed)
}

const BODY: Event = Event::Call(CodeId { module: 0, unit: 0 });

const FUNCTION: Event = Event::Call(CodeId { module: 0, unit: 1 });

/// Events, and the arcs that they tell.
static TOLD: [(&str, &[Event], &[(i64, i64)]); 3] = [
    (
        "Two returns",
        &[
            BODY,
            Event::Line(1),
            Event::Line(2),
            Event::Line(7),
            FUNCTION,
            Event::Line(3),
            Event::Line(4),
            Event::Line(6),
            Event::Return,
            Event::Return,
        ],
        &[
            (-2, 3),
            (-1, 1),
            (1, 2),
            (2, 7),
            (3, 4),
            (4, 6),
            (6, -2),
            (7, -1),
        ],
    ),
    (
        "An exception and its handler",
        &[
            BODY,
            Event::Line(2),
            Event::Throw(ExcKind::ZeroDivisionError),
            Event::Line(3),
            Event::Return,
        ],
        &[(-1, 2), (2, 3), (3, -1)],
    ),
    (
        "A loop that is cut",
        &[
            Event::Return,
            BODY,
            Event::Line(1),
            Event::Line(2),
            Event::Line(1),
        ],
        &[(-1, 1), (1, 2), (2, 1)],
    ),
];

#[test]
fn arcs_of_events(rt: HostRuntime) -> Result<(), Fail> {
    let alloc = rt.alloc();
    for (title, events, wanted) in &TOLD {
        assert_eq!(rt; arcs_after(alloc, *events)?.as_slice(), *wanted, "{title}");
    }
    Ok(())
}
