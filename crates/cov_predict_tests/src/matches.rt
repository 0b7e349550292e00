// `match`.

use crate::rows::{Row, first_wrong};
use std::test::Fail;

static ROWS: [Row; 4] = [
    Row {
        title: "Match of a name",
        source: "match a:\n    case 1:\n        b = 1\n    case 2 | 3 as c:\n        b = 2\n    case c:\n        b = 3\nprint(b)\n",
        lines: "1 2 3 4 5 6 7 8",
        predicted: "-1 1; 1 2; 2 3; 2 4; 3 8; 4 5; 4 6; 5 8; 6 7; 7 8; 8 -1",
        possible: "-1 1; 1 -1; 1 2; 2 -1; 2 3; 2 4; 3 -1; 3 8; 4 -1; 4 5; 4 6; 5 -1; 5 8; 6 -1; 6 7; 7 -1; 7 8; 8 -1",
        branches: "2 3; 2 4; 4 5; 4 6",
    },
    Row {
        title: "Match past its cases",
        source: "match a:\n    case 1 if b:\n        c = 1\n    case d if d:\n        c = 2\nprint(c)\n",
        lines: "1 2 3 4 5 6",
        predicted: "-1 1; 1 2; 2 3; 2 4; 3 6; 4 5; 4 6; 5 6; 6 -1",
        possible: "-1 1; 1 -1; 1 2; 2 -1; 2 3; 2 4; 3 -1; 3 6; 4 -1; 4 5; 4 6; 5 -1; 5 6; 6 -1",
        branches: "2 3; 2 4; 4 5; 4 6",
    },
    Row {
        title: "Match of one line each",
        source: "match a:\n    case 1: b = 1\n    case _: b = 2\nprint(b)\n",
        lines: "1 2 3 4",
        predicted: "-1 1; 1 2; 2 3; 2 4; 3 4; 4 -1",
        possible: "-1 1; 1 -1; 1 2; 2 -1; 2 3; 2 4; 3 -1; 3 4; 4 -1",
        branches: "2 3; 2 4",
    },
    Row {
        title: "Match in a loop",
        source: "for k in a:\n    match k:\n        case 1:\n            continue\n        case _:\n            break\nprint(1)\n",
        lines: "1 2 3 4 5 6 7",
        predicted: "-1 1; 1 2; 1 7; 2 3; 3 4; 3 5; 4 1; 5 6; 6 7; 7 -1",
        possible: "-1 1; 1 -1; 1 2; 1 7; 2 -1; 2 3; 3 -1; 3 4; 3 5; 4 -1; 4 1; 5 -1; 5 6; 6 -1; 6 7; 7 -1",
        branches: "1 2; 1 7; 3 4; 3 5",
    },
];

#[test]
fn prediction_of_matches(rt: HostRuntime) -> Result<(), Fail> {
    let wrong = first_wrong(rt.alloc(), &ROWS)?;
    assert_eq!(rt; wrong, "");
    Ok(())
}
