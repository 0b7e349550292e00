//! Rows of reports in LCOV's format and of annotated sources.

use crate::sources::{
    EMPTY, FIRST_RUN, Form, Measured, ONE_LINE_LOOP, OTHER_ENDS, PRAGMA, TWO_RUNS, Wanted,
    analysed, data_of, wrong,
};
use cov_lcov::annotate;
use std::test::Fail;

static RECORDS: [Wanted; 6] = [
    Wanted {
        title: "LCOV of it",
        file: FIRST_RUN,
        report: "SF:a.py\nDA:1,1\nDA:2,1\nDA:3,1\nDA:5,0\nLF:4\nLH:3\n\
         BRDA:2,0,jump to line 3,1\nBRDA:2,0,jump to line 5,0\nBRF:2\nBRH:1\n\
         end_of_record\n",
    },
    Wanted {
        title: "Counts of a one-line loop",
        file: ONE_LINE_LOOP,
        report: "SF:n.py\nDA:1,1\nDA:2,4\nLF:2\nLH:2\n\
         BRDA:2,0,jump to line 2,3\nBRDA:2,0,exit,1\nBRF:2\nBRH:2\nend_of_record\n",
    },
    Wanted {
        title: "Counts of two runs",
        file: TWO_RUNS,
        report: "SF:n.py\nDA:1,2\nDA:2,8\nLF:2\nLH:2\n\
         BRDA:2,0,jump to line 2,6\nBRDA:2,0,exit,2\nBRF:2\nBRH:2\nend_of_record\n",
    },
    Wanted {
        title: "Pragma",
        file: PRAGMA,
        report: "SF:p.py\nDA:1,1\nDA:5,1\nDA:6,1\nDA:7,1\nLF:4\nLH:4\nBRF:0\nBRH:0\n\
         end_of_record\n",
    },
    Wanted {
        title: "Empty file",
        file: EMPTY,
        report: "SF:e.py\nLF:0\nLH:0\nBRF:0\nBRH:0\nend_of_record\n",
    },
    Wanted {
        title: "a path past ASCII",
        file: Measured("d é/ä.py", "", &[]),
        report: "SF:d é/ä.py\nLF:0\nLH:0\nBRF:0\nBRH:0\nend_of_record\n",
    },
];

static SOURCES: [Wanted; 4] = [
    Wanted {
        title: "annotated source of it",
        file: FIRST_RUN,
        report: "> x = 1\n> if x:\n>     print(x)\n  else:\n!     print(0)\n",
    },
    Wanted {
        title: "line ends with a carriage return, and no end of the last line",
        file: OTHER_ENDS,
        report: "> x = 1\n> if x:\n>     print(x)\n  else:\n!     print(0)\n",
    },
    Wanted {
        title: "Pragma",
        file: PRAGMA,
        report: "> debug = False\n- if debug:  # pragma: no cover\n-     print(1)\n  else:\n\
         >     print(2)\n> while True:\n>     break\n",
    },
    Wanted {
        title: "Empty file",
        file: EMPTY,
        report: "",
    },
];

#[test]
fn reports(rt: HostRuntime) -> Result<(), Fail> {
    let found = wrong(rt.alloc(), &RECORDS, Form::Lcov)?;
    assert_eq!(rt; found.as_str(), "");
    Ok(())
}

#[test]
fn annotated_sources(rt: HostRuntime) -> Result<(), Fail> {
    let found = wrong(rt.alloc(), &SOURCES, Form::Annotated)?;
    assert_eq!(rt; found.as_str(), "");
    Ok(())
}

#[test]
fn one_line_of_a_megabyte(rt: HostRuntime) -> Result<(), Fail> {
    let alloc = rt.alloc();
    let letters = "a".repeat(alloc, 1_048_567)?;
    let source = format!(in alloc; "x = 1  # {letters}")?;
    let wanted = format!(in alloc; "> {source}\n")?;
    let data = data_of(alloc, "a.py", true, &[(-1, 1, 1), (1, -1, 1)])?;
    let analysis = analysed(alloc, "a.py", source.as_str(), &data)?;
    let text = annotate(alloc, &analysis, source.as_str())?;
    drop(analysis);
    assert!(rt; text.as_str() == wanted.as_str(), "the line with its mark");
    Ok(())
}
