// Events, and the data of them.

use crate::rows::{listed, places, units};
use cov_contexts::Contexts;
use cov_event::{CodeId, Event, Nobody, Tracer};
use cov_recorder::Recorder;
use py_value::ExcKind;
use std::alloc::{AllocError, Global};
use std::test::Fail;

/// What is recorded: arcs or lines, the static context, the set of arcs, and events.
struct Case {
    title: &'static str,
    arcs: bool,
    fixed: &'static str,
    set: &'static [(i32, i32)],
    events: &'static [Event],
    wanted: &'static str,
}

/// The data of a module whose functions `test_f` and `g` begin in lines 2 and 5.
fn recorded(alloc: Global, case: &Case) -> Result<String, Fail> {
    let nobody: Option<Nobody> = None;
    let contexts: Contexts<Nobody> = Contexts::new(nobody, Vec::new(alloc), true);
    let units = units(alloc, ("m.py", "m"), ("test_f", 2), ("g", 5))?;
    let places = places(alloc, case.set)?;
    let Ok(mut recorder) = Recorder::new(alloc, units, places, case.arcs, case.fixed, contexts)
    else {
        return Err(Fail::from(AllocError));
    };
    for event in case.events {
        recorder.event(alloc, event)?;
    }
    let (data, plugins) = recorder.finish(alloc);
    drop(plugins);
    Ok(listed(alloc, &data?)?)
}

const BODY: Event = Event::Call(CodeId { module: 0, unit: 0 });

const TEST: Event = Event::Call(CodeId { module: 0, unit: 1 });

const G: Event = Event::Call(CodeId { module: 0, unit: 2 });

const UNKNOWN: Event = Event::Call(CodeId { module: 0, unit: 3 });

const ELSEWHERE: Event = Event::Call(CodeId { module: 1, unit: 0 });

/// Arcs of the body in lines 1 and 7, of `test_f` in line 3 and of `g` in line 6.
const SET: [(i32, i32); 8] = [
    (-5, 6),
    (-2, 3),
    (-1, 1),
    (1, 7),
    (3, -2),
    (6, -5),
    (7, -1),
    (7, 7),
];

static CASES: [Case; 10] = [
    Case {
        title: "Nothing",
        arcs: true,
        fixed: "",
        set: &SET,
        events: &[],
        wanted: "",
    },
    Case {
        title: "A test and a function that it calls",
        arcs: true,
        fixed: "",
        set: &SET,
        events: &[
            BODY,
            Event::Line(1),
            Event::Line(7),
            TEST,
            Event::Line(3),
            G,
            Event::Line(6),
            Event::Return,
            Event::Return,
            G,
            Event::Line(6),
            Event::Return,
            Event::Return,
        ],
        wanted: "m.py\n: -5 6 1\n: -1 1 1\n: 1 7 1\n: 6 -5 1\n: 7 -1 1\n\
                 m.test_f: -5 6 1\nm.test_f: -2 3 1\nm.test_f: 3 -2 1\nm.test_f: 6 -5 1\n",
    },
    Case {
        title: "The static context",
        arcs: true,
        fixed: "ci",
        set: &SET,
        events: &[BODY, Event::Line(1), TEST, Event::Line(3), Event::Return],
        wanted: "m.py\nci: -1 1 1\nci|m.test_f: -2 3 1\nci|m.test_f: 3 -2 1\n",
    },
    Case {
        title: "An arc that is taken twice",
        arcs: true,
        fixed: "",
        set: &SET,
        events: &[
            G,
            Event::Line(6),
            Event::Return,
            G,
            Event::Line(6),
            Event::Return,
        ],
        wanted: "m.py\n: -5 6 2\n: 6 -5 2\n",
    },
    Case {
        title: "Arcs that are not in the set: crossed by an exception, or of no statement",
        arcs: true,
        fixed: "",
        set: &SET,
        events: &[
            BODY,
            Event::Line(1),
            Event::Throw(ExcKind::ValueError),
            Event::Return,
        ],
        wanted: "m.py\n: -1 1 1\n",
    },
    Case {
        title: "A body without an arc",
        arcs: true,
        fixed: "",
        set: &SET,
        events: &[BODY],
        wanted: "m.py\n",
    },
    Case {
        title: "Codes that the table lacks",
        arcs: true,
        fixed: "",
        set: &SET,
        events: &[
            UNKNOWN,
            Event::Line(6),
            Event::Return,
            ELSEWHERE,
            Event::Line(1),
            Event::Return,
        ],
        wanted: "",
    },
    Case {
        title: "Events outside of any frame, and lines that no text has",
        arcs: true,
        fixed: "",
        set: &SET,
        events: &[
            Event::Line(1),
            Event::Return,
            Event::Throw(ExcKind::KeyError),
            BODY,
            Event::Line(0),
            Event::Line(65_536),
            Event::Line(1),
            Event::Line(7),
        ],
        wanted: "m.py\n: -1 1 1\n: 1 7 1\n",
    },
    Case {
        title: "Lines",
        arcs: false,
        fixed: "",
        set: &SET,
        events: &[
            BODY,
            Event::Line(1),
            Event::Line(7),
            TEST,
            Event::Line(3),
            Event::Return,
            Event::Line(7),
            Event::Line(8),
            Event::Return,
        ],
        wanted: "m.py\n: 1 1 1\n: 7 7 2\nm.test_f: 3 3 1\n",
    },
    Case {
        title: "Lines of a module without an arc",
        arcs: false,
        fixed: "",
        set: &[],
        events: &[BODY, Event::Line(1), Event::Return],
        wanted: "m.py\n",
    },
];

#[test]
fn data_of_events(rt: HostRuntime) -> Result<(), Fail> {
    let alloc = rt.alloc();
    for case in &CASES {
        let told = recorded(alloc, case)?;
        let title = case.title;
        assert_eq!(&rt; told.as_str(), case.wanted, "{title}");
    }
    Ok(())
}
