//! Sources with what runs took of them, the reports of their analyses, and rows that say what these
//! reports are.
ghost use Rattle.std.specs.Prelude.{IfOk};
ghost use Rattle.py_token.specs.OnLines.{AreOnLines};
ghost use Rattle.py_token.specs.View.{view_tokens};
ghost use Rattle.py_syntax.specs.View.{plain_module};
ghost use Rattle.cov_analysis.specs.Lines.{IsOfText};
ghost use Rattle.cov_analysis.specs.Analyses.{AreReportable, IsReportable, analysis_view};

use cov_analysis::{Analysis, analyse};
use cov_data::{Data, Row};
use cov_exclude::{Patterns, RegexMaker};
use cov_json::json_report;
use cov_lcov::{annotate, lcov_report};
use cov_text::text_report;
use py_parse::parse;
use py_syntax::Module;
use py_token::{LINE_LIMIT, Token, count_lines, tokens};
use std::alloc::Global;
use std::test::Fail;

/// The default patterns of lines that are excluded.
const EXCLUDE: [&str; 1] = [r"#\s*(pragma|PRAGMA)[:\s]?\s*(no|NO)\s*(cover|COVER)"];

/// The default patterns of lines that needn't take all of their branches.
const PARTIAL: [&str; 3] = [
    r"#\s*(pragma|PRAGMA)[:\s]?\s*(no|NO)\s*(branch|BRANCH)",
    "while (True|1|False|0):",
    "if (True|1|False|0):",
];

/// A path, its source, and the rows that runs took: from, to and how often.
#[derive(Clone, Copy)]
pub(crate) struct Measured(
    pub(crate) &'static str,
    pub(crate) &'static str,
    pub(crate) &'static [(i32, i32, u32)],
);

pub(crate) const FIRST_RUN: Measured = Measured(
    "a.py",
    "x = 1\nif x:\n    print(x)\nelse:\n    print(0)\n",
    &[(-1, 1, 1), (1, 2, 1), (2, 3, 1), (3, -1, 1)],
);

pub(crate) const OTHER_ENDS: Measured = Measured(
    "a.py",
    "x = 1\r\nif x:\r\n    print(x)\r\nelse:\r\n    print(0)",
    &[(-1, 1, 1), (1, 2, 1), (2, 3, 1), (3, -1, 1)],
);

pub(crate) const HANDLERS: Measured = Measured(
    "t.py",
    "try:\n    x = 1 // 0\nexcept KeyError:\n    print(1)\n\
     except ZeroDivisionError:\n    print(2)\nprint(3)\n",
    &[
        (-1, 1, 1),
        (1, 2, 1),
        (2, 3, 1),
        (3, 5, 1),
        (5, 6, 1),
        (6, 7, 1),
        (7, -1, 1),
    ],
);

pub(crate) const PRAGMA: Measured = Measured(
    "p.py",
    "debug = False\nif debug:  # pragma: no cover\n    print(1)\nelse:\n    print(2)\n\
     while True:\n    break\n",
    &[
        (-1, 1, 1),
        (1, 2, 1),
        (2, 5, 1),
        (5, 6, 1),
        (6, 7, 1),
        (7, -1, 1),
    ],
);

pub(crate) const CALC: Measured = Measured(
    "calc.py",
    "def div(a, b):\n    if b == 0:\n        return None\n    return a // b\n\n\
     def unused(x):\n    return x\n",
    &[
        (-1, 1, 1),
        (1, 6, 1),
        (6, -1, 1),
        (-1, 2, 1),
        (2, 4, 1),
        (4, -1, 1),
    ],
);

pub(crate) const TEST_CALC: Measured = Measured(
    "test_calc.py",
    "import calc\n\ndef test_div():\n    assert calc.div(6, 3) == 2\n\n\
     if __name__ == \"__main__\":\n    test_div()\n    print(\"ok\")\n",
    &[
        (-1, 1, 1),
        (1, 3, 1),
        (3, 6, 1),
        (6, 7, 1),
        (-3, 4, 1),
        (4, -3, 1),
        (7, 8, 1),
        (8, -1, 1),
    ],
);

pub(crate) const LINES: Measured = Measured(
    "b.py",
    "x = 0\nif x:\n    print(x)\n",
    &[(1, 1, 1), (2, 2, 1)],
);

const LOOP: &str = "n = 3\nwhile n: n = n - 1\n";

pub(crate) const ONE_LINE_LOOP: Measured = Measured(
    "n.py",
    LOOP,
    &[(-1, 1, 1), (1, 2, 1), (2, 2, 3), (2, -1, 1)],
);

pub(crate) const TWO_RUNS: Measured = Measured(
    "n.py",
    LOOP,
    &[(-1, 1, 2), (1, 2, 2), (2, 2, 6), (2, -1, 2)],
);

/// A function that is never called, with an excluded line in it.
pub(crate) const UNCALLED: Measured = Measured(
    "r.py",
    "def f():\n    a = 1\n    b = 2  # pragma: no cover\n    c = 3\nf = 0\n",
    &[(-1, 1, 1), (1, 5, 1), (5, -1, 1)],
);

/// A function in the last line, where the run was cut.
pub(crate) const TWO_EXITS: Measured = Measured(
    "q.py",
    "x = 1\ndef f(): return x\n",
    &[(-1, 1, 1), (1, 2, 1)],
);

pub(crate) const EMPTY: Measured = Measured("e.py", "", &[(-1, -1, 1)]);

/// A form of report: text of arcs or of lines, with or without what is missing, JSON of arcs or of
/// lines, LCOV of arcs, or the source with its marks.
#[derive(Clone, Copy)]
pub(crate) enum Form {
    Text { arcs: bool, missing: bool },
    Json { arcs: bool },
    Lcov,
    Annotated,
}

/// A row: a title, a file, and its report.
pub(crate) struct Wanted {
    pub(crate) title: &'static str,
    pub(crate) file: Measured,
    pub(crate) report: &'static str,
}

/// The first report that isn't as its row says, under the title of the row; nothing where all are.
pub(crate) fn wrong(alloc: Global, rows: &[Wanted], form: Form) -> Result<String, Fail> {
    for row in rows {
        let text = report_of(alloc, &row.file, form)?;
        if text.as_str() != row.report {
            return told(alloc, row.title, text.as_str());
        }
    }
    Ok(String::new(alloc))
}

fn told(alloc: Global, title: &str, text: &str) -> Result<String, Fail> {
    let told = format!(in alloc; "{title}:\n{text}")?;
    Ok(told)
}

fn report_of(alloc: Global, file: &Measured, form: Form) -> Result<String, Fail> {
    match form {
        Form::Text { arcs, missing } => text_of(alloc, &[*file], arcs, missing),
        Form::Json { arcs } => json_of(alloc, &[*file], arcs),
        Form::Lcov => lcov_of(alloc, &[*file], true),
        Form::Annotated => annotated_of(alloc, file),
    }
}

/// The text report of files, in their order.
pub(crate) fn text_of(
    alloc: Global,
    files: &[Measured],
    arcs: bool,
    missing: bool,
) -> Result<String, Fail> {
    let analyses = analyses_of(alloc, files, arcs)?;
    let text = text_report(alloc, &analyses, arcs, missing)?;
    drop(analyses);
    Ok(text)
}

/// Their report in JSON.
pub(crate) fn json_of(alloc: Global, files: &[Measured], arcs: bool) -> Result<String, Fail> {
    let analyses = analyses_of(alloc, files, arcs)?;
    let text = json_report(alloc, &analyses, arcs)?;
    drop(analyses);
    Ok(text)
}

/// Their report in LCOV's format.
fn lcov_of(alloc: Global, files: &[Measured], arcs: bool) -> Result<String, Fail> {
    let analyses = analyses_of(alloc, files, arcs)?;
    let text = lcov_report(alloc, &analyses, arcs)?;
    drop(analyses);
    Ok(text)
}

/// The source of a file whose arcs were recorded, with its marks.
fn annotated_of(alloc: Global, file: &Measured) -> Result<String, Fail> {
    let analysis = analysis_of(alloc, file, true)?;
    let text = annotate(alloc, &analysis, file.1)?;
    drop(analysis);
    Ok(text)
}

fn analyses_of(alloc: Global, files: &[Measured], arcs: bool) -> Result<Vec<Analysis>, Fail>
    ensures { IfOk result (λ analyses. AreReportable analyses.items) }
{
    let mut analyses = Vec::new(alloc);
    for file in files {
        let analysis = analysis_of(alloc, file, arcs)?;
        analyses.push(analysis)?;
    }
    Ok(analyses)
}

/// The analysis of a file with the default patterns.
fn analysis_of(alloc: Global, file: &Measured, arcs: bool) -> Result<Analysis, Fail>
    ensures { IfOk result (λ analysis. IsReportable (analysis_view analysis)) }
{
    let data = data_of(alloc, file.0, arcs, file.2)?;
    analysed(alloc, file.0, file.1, &data)
}

/// The analysis of a source by data, with the default patterns.
pub(crate) fn analysed(
    alloc: Global,
    path: &str,
    source: &str,
    data: &Data,
) -> Result<Analysis, Fail>
    ensures { IfOk result (λ analysis. IsReportable (analysis_view analysis)) }
{
    let module = module_of(alloc, source)?;
    let exclude = patterns_of(alloc, &EXCLUDE)?;
    let partial = patterns_of(alloc, &PARTIAL)?;
    let analysis = analyse(alloc, &module, source, &exclude, &partial, data, path)?;
    Ok(analysis)
}

/// The module of a source.
fn module_of(alloc: Global, source: &str) -> Result<Module, Fail>
    ensures { IfOk result (λ tree. IsOfText (plain_module tree)) }
{
    let tokens = tokens_of(alloc, source)?;
    match parse(alloc, &tokens) {
        Ok(module) => Ok(module),
        Err(error) => {
            drop(error);
            Err(Fail::new("the source has no tree"))
        }
    }
}

fn tokens_of(alloc: Global, source: &str) -> Result<Vec<Token>, Fail>
    ensures { IfOk result (λ tokens. AreOnLines (view_tokens tokens.items)) }
{
    if count_lines(source) > LINE_LIMIT {
        return Err(Fail::new("too many lines"));
    }
    match tokens(alloc, source) {
        Ok(tokens) => Ok(tokens),
        Err(error) => {
            drop(error);
            Err(Fail::new("the source has no tokens"))
        }
    }
}

/// The patterns of texts.
fn patterns_of(alloc: Global, texts: &[&str]) -> Result<Patterns, Fail> {
    let texts = owned(alloc, texts)?;
    match Patterns::build(alloc, &texts, &mut RegexMaker::new()) {
        Ok(patterns) => Ok(patterns),
        Err(error) => {
            drop(error);
            Err(Fail::new("a pattern isn't made"))
        }
    }
}

fn owned(alloc: Global, texts: &[&str]) -> Result<Vec<String>, Fail> {
    let mut owned = Vec::new(alloc);
    for text in texts {
        owned.push(String::from_str(alloc, text)?)?;
    }
    Ok(owned)
}

/// Data of one path.
pub(crate) fn data_of(
    alloc: Global,
    path: &str,
    arcs: bool,
    rows: &[(i32, i32, u32)],
) -> Result<Data, Fail> {
    let mut data = Data::new(alloc, arcs);
    for (from, to, count) in rows {
        let path = String::from_str(alloc, path)?;
        let row = Row {
            path,
            context: String::new(alloc),
            from: *from,
            to: *to,
            count: *count,
        };
        add(&mut data, row)?;
    }
    Ok(data)
}

fn add(data: &mut Data, row: Row) -> Result<(), Fail> {
    if !data.accepts(&row) {
        drop(row);
        return Err(Fail::new("a row isn't in range"));
    }
    data.add(row)?;
    Ok(())
}
