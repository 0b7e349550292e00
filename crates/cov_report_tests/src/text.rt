//! Rows of text reports.
ghost use Rattle.std.specs.Prelude.{IfOk};
ghost use Rattle.cov_analysis.specs.Counts.{IsCounted, numbers_of};

use crate::sources::{
    CALC, EMPTY, FIRST_RUN, Form, HANDLERS, LINES, Measured, PRAGMA, TEST_CALC, TWO_EXITS,
    UNCALLED, Wanted, text_of, wrong,
};
use cov_analysis::{Analysis, Numbers};
use cov_text::{NoMemory, text_report};
use std::alloc::Global;
use std::test::Fail;

/// Of arcs, with what is missing.
static ARCS: [Wanted; 6] = [
    Wanted {
        title: "Report of it",
        file: FIRST_RUN,
        report: "Name    Stmts   Miss Branch BrPart  Cover   Missing\n\
         ---------------------------------------------------\n\
         a.py        4      1      2      1    67%   5\n\
         ---------------------------------------------------\n\
         TOTAL       4      1      2      1    67%\n",
    },
    Wanted {
        title: "Empty file",
        file: EMPTY,
        report: "Name    Stmts   Miss Branch BrPart  Cover   Missing\n\
         ---------------------------------------------------\n\
         e.py        0      0      0      0   100%\n\
         ---------------------------------------------------\n\
         TOTAL       0      0      0      0   100%\n",
    },
    Wanted {
        title: "Handlers",
        file: HANDLERS,
        report: "Name    Stmts   Miss Branch BrPart  Cover   Missing\n\
         ---------------------------------------------------\n\
         t.py        7      1      2      1    78%   4\n\
         ---------------------------------------------------\n\
         TOTAL       7      1      2      1    78%\n",
    },
    Wanted {
        title: "Pragma",
        file: PRAGMA,
        report: "Name    Stmts   Miss Branch BrPart  Cover   Missing\n\
         ---------------------------------------------------\n\
         p.py        4      0      0      0   100%\n\
         ---------------------------------------------------\n\
         TOTAL       4      0      0      0   100%\n",
    },
    Wanted {
        title: "a range over an excluded line",
        file: UNCALLED,
        report: "Name    Stmts   Miss Branch BrPart  Cover   Missing\n\
         ---------------------------------------------------\n\
         r.py        4      2      0      0    50%   2-4\n\
         ---------------------------------------------------\n\
         TOTAL       4      2      0      0    50%\n",
    },
    Wanted {
        title: "two exits of one line",
        file: TWO_EXITS,
        report: "Name    Stmts   Miss Branch BrPart  Cover   Missing\n\
         ---------------------------------------------------\n\
         q.py        2      0      2      2    50%   2->exit, 2->exit\n\
         ---------------------------------------------------\n\
         TOTAL       2      0      2      2    50%\n",
    },
];

/// Of arcs, without it.
static PLAIN_ARCS: [Wanted; 1] = [Wanted {
    title: "Report of it, without what is missing",
    file: FIRST_RUN,
    report: "Name    Stmts   Miss Branch BrPart  Cover\n\
         -----------------------------------------\n\
         a.py        4      1      2      1    67%\n\
         -----------------------------------------\n\
         TOTAL       4      1      2      1    67%\n",
}];

/// Of lines, with what is missing.
static LINE_DATA: [Wanted; 1] = [Wanted {
    title: "a path of six characters",
    file: Measured("é/é.py", "", &[]),
    report: "Name     Stmts   Miss  Cover   Missing\n\
         --------------------------------------\n\
         é/é.py       0      0   100%\n\
         --------------------------------------\n\
         TOTAL        0      0   100%\n",
}];

/// Of lines, without it.
static PLAIN_LINES: [Wanted; 1] = [Wanted {
    title: "Numbers",
    file: LINES,
    report: "Name    Stmts   Miss  Cover\n\
         ---------------------------\n\
         b.py        3      1    67%\n\
         ---------------------------\n\
         TOTAL       3      1    67%\n",
}];

#[test]
fn reports_of_arcs(rt: HostRuntime) -> Result<(), Fail> {
    let form = Form::Text {
        arcs: true,
        missing: true,
    };
    let found = wrong(rt.alloc(), &ARCS, form)?;
    assert_eq!(rt; found.as_str(), "");
    Ok(())
}

#[test]
fn reports_of_arcs_without_what_is_missing(rt: HostRuntime) -> Result<(), Fail> {
    let form = Form::Text {
        arcs: true,
        missing: false,
    };
    let found = wrong(rt.alloc(), &PLAIN_ARCS, form)?;
    assert_eq!(rt; found.as_str(), "");
    Ok(())
}

#[test]
fn reports_of_lines(rt: HostRuntime) -> Result<(), Fail> {
    let form = Form::Text {
        arcs: false,
        missing: true,
    };
    let found = wrong(rt.alloc(), &LINE_DATA, form)?;
    assert_eq!(rt; found.as_str(), "");
    Ok(())
}

#[test]
fn reports_of_lines_without_what_is_missing(rt: HostRuntime) -> Result<(), Fail> {
    let form = Form::Text {
        arcs: false,
        missing: false,
    };
    let found = wrong(rt.alloc(), &PLAIN_LINES, form)?;
    assert_eq!(rt; found.as_str(), "");
    Ok(())
}

#[test]
fn ordinary_use(rt: HostRuntime) -> Result<(), Fail> {
    let text = text_of(rt.alloc(), &[CALC, TEST_CALC], true, true)?;
    assert_eq!(rt;
        text.as_str(),
        "Name           Stmts   Miss Branch BrPart  Cover   Missing\n\
         ----------------------------------------------------------\n\
         calc.py            6      2      2      1    62%   3, 7\n\
         test_calc.py       6      0      2      1    88%   6->exit\n\
         ----------------------------------------------------------\n\
         TOTAL             12      2      4      2    75%\n"
    );
    Ok(())
}

/// Three files, in the byte order of their paths.
#[test]
fn files_in_order(rt: HostRuntime) -> Result<(), Fail> {
    const ROWS: &[(i32, i32, u32)] = &[(-1, 1, 1), (1, -1, 1)];
    let files = [
        Measured("a.py", "x = 1", ROWS),
        Measured("a10.py", "x = 1", ROWS),
        Measured("a2.py", "x = 1", ROWS),
    ];
    let text = text_of(rt.alloc(), &files, true, true)?;
    assert_eq!(rt;
        text.as_str(),
        "Name     Stmts   Miss Branch BrPart  Cover   Missing\n\
         ----------------------------------------------------\n\
         a.py         1      0      0      0   100%\n\
         a10.py       1      0      0      0   100%\n\
         a2.py        1      0      0      0   100%\n\
         ----------------------------------------------------\n\
         TOTAL        3      0      0      0   100%\n"
    );
    Ok(())
}

/// Ranges over lines that are no statements, and several branches of one line.
fn ranges(alloc: Global) -> Result<Analysis, NoMemory>
    ensures { IfOk result (λ file. IsCounted (numbers_of file)) }
{
    let path = String::from_str(alloc, "r.py")?;
    let statements: Vec<u32> = vec![in alloc; 1, 2, 5, 6, 9, 11, 12, 14]?;
    let missing: Vec<u32> = vec![in alloc; 5, 6, 9, 11, 14]?;
    let missing_branches: Vec<(u32, i32)> = vec![in alloc;
        (1, -1),
        (1, 9),
        (1, 10),
        (1, 2),
        (1, 12),
        (12, 14),
    ]?;
    let numbers = Numbers {
        statements: 8,
        missing: 5,
        excluded: 0,
        branches: 6,
        missing_branches: 6,
        partial: 6,
    };
    Ok(Analysis {
        path,
        statements,
        excluded: Vec::new(alloc),
        missing,
        branches: Vec::new(alloc),
        missing_branches,
        hits: Vec::new(alloc),
        branch_hits: Vec::new(alloc),
        numbers,
    })
}

#[test]
fn branches_come_by_their_bytes(rt: HostRuntime) -> Result<(), Fail> {
    let files = [ranges(rt.alloc())?];
    let text = text_report(rt.alloc(), &files, true, true)?;
    assert_eq!(rt;
        text.as_str(),
        "Name    Stmts   Miss Branch BrPart  Cover   Missing\n\
         ---------------------------------------------------\n\
         r.py        8      5      6      6    21%   1->10, 1->12, 1->2, 1->exit, 5-11, 14\n\
         ---------------------------------------------------\n\
         TOTAL       8      5      6      6    21%\n"
    );
    Ok(())
}
