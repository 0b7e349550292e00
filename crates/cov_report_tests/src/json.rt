//! Rows of reports in JSON.

use crate::sources::{EMPTY, FIRST_RUN, Form, LINES, Measured, PRAGMA, Wanted, json_of, wrong};
use std::test::Fail;

static ARCS: [Wanted; 3] = [
    Wanted {
        title: "JSON of it",
        file: FIRST_RUN,
        report: "{\"files\":{\"a.py\":{\"excluded_lines\":[],\"executed_branches\":[[2,3]],\
         \"executed_lines\":[1,2,3],\"missing_branches\":[[2,5]],\"missing_lines\":[5],\
         \"summary\":{\"covered_branches\":1,\"covered_lines\":3,\"excluded_lines\":0,\
         \"missing_branches\":1,\"missing_lines\":1,\"num_branches\":2,\
         \"num_partial_branches\":1,\"num_statements\":4,\
         \"percent_covered_display\":\"67\"}}},\"meta\":{\"branch_coverage\":true},\
         \"totals\":{\"covered_branches\":1,\"covered_lines\":3,\"excluded_lines\":0,\
         \"missing_branches\":1,\"missing_lines\":1,\"num_branches\":2,\
         \"num_partial_branches\":1,\"num_statements\":4,\
         \"percent_covered_display\":\"67\"}}",
    },
    Wanted {
        title: "Pragma",
        file: PRAGMA,
        report: "{\"files\":{\"p.py\":{\"excluded_lines\":[2,3],\"executed_branches\":[],\
         \"executed_lines\":[1,5,6,7],\"missing_branches\":[],\"missing_lines\":[],\
         \"summary\":{\"covered_branches\":0,\"covered_lines\":4,\"excluded_lines\":2,\
         \"missing_branches\":0,\"missing_lines\":0,\"num_branches\":0,\
         \"num_partial_branches\":0,\"num_statements\":4,\
         \"percent_covered_display\":\"100\"}}},\"meta\":{\"branch_coverage\":true},\
         \"totals\":{\"covered_branches\":0,\"covered_lines\":4,\"excluded_lines\":2,\
         \"missing_branches\":0,\"missing_lines\":0,\"num_branches\":0,\
         \"num_partial_branches\":0,\"num_statements\":4,\
         \"percent_covered_display\":\"100\"}}",
    },
    Wanted {
        title: "Empty file",
        file: EMPTY,
        report: "{\"files\":{\"e.py\":{\"excluded_lines\":[],\"executed_branches\":[],\
         \"executed_lines\":[],\"missing_branches\":[],\"missing_lines\":[],\
         \"summary\":{\"covered_branches\":0,\"covered_lines\":0,\"excluded_lines\":0,\
         \"missing_branches\":0,\"missing_lines\":0,\"num_branches\":0,\
         \"num_partial_branches\":0,\"num_statements\":0,\
         \"percent_covered_display\":\"100\"}}},\"meta\":{\"branch_coverage\":true},\
         \"totals\":{\"covered_branches\":0,\"covered_lines\":0,\"excluded_lines\":0,\
         \"missing_branches\":0,\"missing_lines\":0,\"num_branches\":0,\
         \"num_partial_branches\":0,\"num_statements\":0,\
         \"percent_covered_display\":\"100\"}}",
    },
];

static LINE_DATA: [Wanted; 2] = [
    Wanted {
        title: "Numbers: no key speaks of branches",
        file: LINES,
        report: "{\"files\":{\"b.py\":{\"excluded_lines\":[],\"executed_lines\":[1,2],\
         \"missing_lines\":[3],\"summary\":{\"covered_lines\":2,\"excluded_lines\":0,\
         \"missing_lines\":1,\"num_statements\":3,\"percent_covered_display\":\"67\"}}},\
         \"meta\":{\"branch_coverage\":false},\"totals\":{\"covered_lines\":2,\
         \"excluded_lines\":0,\"missing_lines\":1,\"num_statements\":3,\
         \"percent_covered_display\":\"67\"}}",
    },
    Wanted {
        title: "a path with a quote, a backslash and a letter past ASCII",
        file: Measured("é\\\"a\".py", "", &[]),
        report: "{\"files\":{\"é\\\\\\\"a\\\".py\":{\"excluded_lines\":[],\"executed_lines\":[],\
         \"missing_lines\":[],\"summary\":{\"covered_lines\":0,\"excluded_lines\":0,\
         \"missing_lines\":0,\"num_statements\":0,\"percent_covered_display\":\"100\"}}},\
         \"meta\":{\"branch_coverage\":false},\"totals\":{\"covered_lines\":0,\
         \"excluded_lines\":0,\"missing_lines\":0,\"num_statements\":0,\
         \"percent_covered_display\":\"100\"}}",
    },
];

#[test]
fn reports_of_arcs(rt: HostRuntime) -> Result<(), Fail> {
    let found = wrong(rt.alloc(), &ARCS, Form::Json { arcs: true })?;
    assert_eq!(rt; found.as_str(), "");
    Ok(())
}

#[test]
fn reports_of_lines(rt: HostRuntime) -> Result<(), Fail> {
    let found = wrong(rt.alloc(), &LINE_DATA, Form::Json { arcs: false })?;
    assert_eq!(rt; found.as_str(), "");
    Ok(())
}

#[test]
fn a_report_of_no_file(rt: HostRuntime) -> Result<(), Fail> {
    let text = json_of(rt.alloc(), &[], false)?;
    assert_eq!(rt;
        text.as_str(),
        "{\"files\":{},\"meta\":{\"branch_coverage\":false},\"totals\":{\"covered_lines\":0,\
         \"excluded_lines\":0,\"missing_lines\":0,\"num_statements\":0,\
         \"percent_covered_display\":\"100\"}}"
    );
    Ok(())
}

#[test]
fn files_come_by_their_paths(rt: HostRuntime) -> Result<(), Fail> {
    let files = [
        Measured("é.py", "", &[]),
        Measured("b.py", "", &[]),
        Measured("a/z.py", "", &[]),
    ];
    let report = json_of(rt.alloc(), &files, true)?;
    let text = report.as_str();
    let first = text.find("\"a/z.py\"");
    let second = text.find("\"b.py\"");
    let third = text.find("\"é.py\"");
    assert!(rt;
        first.is_some() && first < second && second < third,
        "in order"
    );
    Ok(())
}
