//! The commands that report all sources.
ghost use Rattle.std.specs.Option.{option_copied};
ghost use Rattle.std.specs.Prelude.{◌≡◌, ◌||◌, ℕ, List, IfOk, string_bytes};
ghost use Rattle.cov_programs.specs.Ends.{Follows};
ghost use Rattle.cov_programs.specs.Objects.{beside};
ghost use Rattle.cov_step.specs.Calls.{IsNoMemory, seen};
ghost use Rattle.cov_step.specs.Commands.{report, json, lcov};
ghost use Rattle.cov_step.specs.Names.{or_else};
ghost use Rattle.cov_step.specs.Objects.{on_sink, on_shelf};
ghost use Rattle.cov_reports.specs.Objects.{on_report};
ghost use Rattle.cov_reports.specs.Reports.{put_text, write_report, write_text};
ghost use Rattle.cov_calls.specs.Views.{answered_view};
ghost use Rattle.cov_reports.specs.Views.{findings_view};

use crate::findings::Findings;
use crate::reported::reported;
use cov_calls::{Answered, judged, put_last, write_last};
use cov_exclude::Maker;
use cov_json::json_report;
use cov_lcov::lcov_report;
use cov_outside::{Shelf, Sink};
use cov_text::text_report;
use cov_vault::Vault;
use cov_why::Why;
use py_text::NoMemory;
use std::alloc::Global;

/// Writes the table of the files.
pub fn report<H: Shelf, V: Vault, M: Maker, O: Sink>(
    alloc: Global,
    show_missing: bool,
    fail_under: Option<u32>,
    data_file: Option<&str>,
    rcfile: Option<&str>,
    shelf: &mut H,
    vault: &mut V,
    maker: &mut M,
    out: &mut O,
) -> Result<Answered, Why>
    ensures { Follows (on_report H.Shelf V.Vault M.Maker O.Sink) IsNoMemory
        (report show_missing fail_under (option_copied data_file.entry)
        (option_copied rcfile.entry)) (((shelf.old, vault.old), maker.old), out.old)
        (seen answered_view result) (((shelf.new, vault.new), maker.new), out.new) }
{
    let findings = reported(alloc, data_file, rcfile, shelf, vault, maker)?;
    write_report(alloc, &findings, show_missing, fail_under, out)
}

fn write_report<O: Sink>(
    alloc: Global,
    findings: &Findings,
    show_missing: bool,
    fail_under: Option<u32>,
    out: &mut O,
) -> Result<Answered, Why>
    ensures { Follows (on_sink O.Sink) IsNoMemory
        (write_report show_missing fail_under (findings_view findings.now)) out.old
        (seen answered_view result) out.new }
{
    let missing = shows_missing(show_missing, findings);
    let Ok(text) = text_report(alloc, &findings.files, findings.arcs, missing) else {
        return Err(Why::NoMemory);
    };
    write_text(alloc, findings, text.as_str(), fail_under, out)
}

/// Whether the words or the settings ask for the column of what is missing.
fn shows_missing(asked: bool, findings: &Findings) -> bool
    ensures { result ≡ asked || (findings_view findings.now).settings.report.show_missing }
{
    asked || findings.settings.show_missing
}

/// Judges the files, and writes a text.
fn write_text<O: Sink>(
    alloc: Global,
    findings: &Findings,
    text: &str,
    fail_under: Option<u32>,
    out: &mut O,
) -> Result<Answered, Why>
    ensures { Follows (on_sink O.Sink) IsNoMemory
        (write_text text.now fail_under (findings_view findings.now)) out.old
        (seen answered_view result) out.new }
{
    let least = least_of(fail_under, findings.settings.fail_under);
    let Ok(answered) = judged(alloc, least, &findings.files) else {
        return Err(Why::NoMemory);
    };
    write_last(alloc, text.as_bytes(), answered, out)
}

/// Puts the JSON report under a name, or writes it.
pub fn json<H: Shelf, V: Vault, M: Maker, O: Sink>(
    alloc: Global,
    name: Option<&str>,
    fail_under: Option<u32>,
    data_file: Option<&str>,
    rcfile: Option<&str>,
    shelf: &mut H,
    vault: &mut V,
    maker: &mut M,
    out: &mut O,
) -> Result<Answered, Why>
    ensures { Follows (on_report H.Shelf V.Vault M.Maker O.Sink) IsNoMemory
        (json (option_copied name.entry) fail_under (option_copied data_file.entry)
        (option_copied rcfile.entry)) (((shelf.old, vault.old), maker.old), out.old)
        (seen answered_view result) (((shelf.new, vault.new), maker.new), out.new) }
{
    let findings = reported(alloc, data_file, rcfile, shelf, vault, maker)?;
    let text = json_report(alloc, &findings.files, findings.arcs);
    let name = name_of(name, "coverage.json");
    put_text(alloc, &findings, name, text, fail_under, shelf, out)
}

/// Puts the report in LCOV's format under a name, or writes it.
pub fn lcov<H: Shelf, V: Vault, M: Maker, O: Sink>(
    alloc: Global,
    name: Option<&str>,
    fail_under: Option<u32>,
    data_file: Option<&str>,
    rcfile: Option<&str>,
    shelf: &mut H,
    vault: &mut V,
    maker: &mut M,
    out: &mut O,
) -> Result<Answered, Why>
    ensures { Follows (on_report H.Shelf V.Vault M.Maker O.Sink) IsNoMemory
        (lcov (option_copied name.entry) fail_under (option_copied data_file.entry)
        (option_copied rcfile.entry)) (((shelf.old, vault.old), maker.old), out.old)
        (seen answered_view result) (((shelf.new, vault.new), maker.new), out.new) }
{
    let findings = reported(alloc, data_file, rcfile, shelf, vault, maker)?;
    let text = lcov_report(alloc, &findings.files, findings.arcs);
    let name = name_of(name, "coverage.lcov");
    put_text(alloc, &findings, name, text, fail_under, shelf, out)
}

/// Judges the files, and puts a text under a name, or writes it.
fn put_text<H: Shelf, O: Sink>(
    alloc: Global,
    findings: &Findings,
    name: &str,
    text: Result<String, NoMemory>,
    fail_under: Option<u32>,
    shelf: &mut H,
    out: &mut O,
) -> Result<Answered, Why>
    ensures { (bytes : List ℕ) → IfOk text (λ t. string_bytes t ≡ bytes)
        → Follows (beside (on_shelf H.Shelf) (on_sink O.Sink)) IsNoMemory
        (put_text name.now bytes fail_under (findings_view findings.now))
        (shelf.old, out.old) (seen answered_view result) (shelf.new, out.new) }
{
    let Ok(text) = text else {
        return Err(Why::NoMemory);
    };
    let least = least_of(fail_under, findings.settings.fail_under);
    let Ok(answered) = judged(alloc, least, &findings.files) else {
        return Err(Why::NoMemory);
    };
    put_last(alloc, name, text.as_bytes(), answered, shelf, out)
}

/// The percentage that the words name, or else the settings.
fn least_of(given: Option<u32>, usual: u32) -> u32
    ensures { result ≡ or_else given usual }
{
    match given {
        Some(least) => least,
        None => usual,
    }
}

/// The name that the words have, or else the usual one.
fn name_of<'n>(given: Option<&'n str>, usual: &'n str) -> &'n str
    ensures { result.now ≡ or_else (option_copied given.entry) usual.now }
{
    match given {
        Some(name) => name,
        None => usual,
    }
}
