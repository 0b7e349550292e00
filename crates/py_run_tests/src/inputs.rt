// Rows of programs that read.

use crate::rows::{Row, compare, run_on, unlimited};
use crate::writer::Writer;
use std::test::Fail;

/// A script with its input, and the input that it leaves.
struct Fed {
    row: Row,
    input: &'static str,
    left: &'static str,
}

static ROWS: [Fed; 5] = [
    Fed {
        row: Row {
            title: "Prompts and lines, the last without an end",
            source: "\
print(input('name? '))
print(input())
",
            out: "name? ada\nlast\n",
            end: "finished",
            steps: 3,
            events: "0.0( 1 2 )",
            arcs: "",
        },
        input: "ada\nlast",
        left: "",
    },
    Fed {
        row: Row {
            title: "No byte more than was asked for",
            source: "x = input()\n",
            out: "",
            end: "finished",
            steps: 2,
            events: "0.0( 1 )",
            arcs: "",
        },
        input: "a\nb\nc",
        left: "b\nc",
    },
    Fed {
        row: Row {
            title: "An empty line, and the end",
            source: "\
print([input()])
try:
    input('? ')
except EOFError as e:
    print(e)
",
            out: "['']\n? no input\n",
            end: "finished",
            steps: 6,
            events: "0.0( 1 2 3 !EOFError 4 5 )",
            arcs: "",
        },
        input: "\n",
        left: "",
    },
    Fed {
        row: Row {
            title: "A number that is read",
            source: "print(int(input()) + 1)\n",
            out: "42\n",
            end: "finished",
            steps: 2,
            events: "0.0( 1 )",
            arcs: "",
        },
        input: " 41 \nrest",
        left: "rest",
    },
    Fed {
        row: Row {
            title: "Nothing is read",
            source: "print('x')\n",
            out: "x\n",
            end: "finished",
            steps: 2,
            events: "0.0( 1 )",
            arcs: "",
        },
        input: "all\n",
        left: "all\n",
    },
];

#[test]
fn runs_that_read(rt: HostRuntime) -> Result<(), Fail> {
    let alloc = rt.alloc();
    let mut found = Writer::new(alloc);
    for fed in &ROWS {
        let told = run_on(alloc, fed.row.source, &[], fed.input, unlimited())?;
        compare(&mut found, &fed.row, &told);
        found.compare(
            fed.row.title,
            "the input left",
            told.left.as_str(),
            fed.left,
        );
    }
    assert_eq!(rt; found.done()?.as_str(), "");
    Ok(())
}
