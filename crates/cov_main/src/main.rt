//! The program: one command over the real files and data, the standard input and the standard
//! streams.
#![tactic(auto)]

use cov_app::coverage;
use cov_contexts::PrefixPlugin;
use cov_event::ContextPlugin;
use cov_exclude::RegexMaker;
use cov_outside::{FolderShelf, StdSink, StdSource, Stream};
use cov_sql::FolderVault;
use py_machine::Machine;
use std::alloc::AllocError;
use std::process::ExitCode;
use std::{env, io};

/// The exit status for want of memory.
const NO_MEMORY: u8 = 70;

/// The plugin labels functions whose names begin so, this many times.
const PREFIX: &str = "bench";

const LABELS: u64 = 1000;

const HELP: &str = "\
usage: coverage COMMAND

  run [--branch] [-a | --append] [--context L] [--budget N] [--hook FILE:NAME] SCRIPT [ARG..]
                run a Python program, and save what its run took
  report [-m | --show-missing] [--fail-under P]
                print how much of each file was run
  json, lcov [-o NAME] [--fail-under P]
                put the same into a file, by JSON or as LCOV has it; `-` prints it
  annotate FILE
                print a file with a mark on each line that was run or missed
  combine [-a | --append] [--keep] [NAME..]
                join the data of several runs
  erase         remove the data
  arcs [--budget N] SCRIPT [ARG..]
                run a Python program, and print its output and then its jumps
  script FILE   do each line of a file as a command
  make SEED SIZE
                make up a program, run it, and print its numbers in a line
  suite [--branch] [--budget N] FILE
                run each test of a file by itself, and tell how it ended
  select [--budget N] OLD NEW
                name the tests of a changed file that must run again
  mutate [--budget N] FILE
                change the modules of tests place by place, and tell which changes none notices
  --help        print this text
  --version     print the version

All but `arcs`, `script`, `make`, `select` and `mutate` take --data-file D (or .coverage) and
--rcfile F (or pyproject.toml). A program is cut after N steps, or 1000000. A jump is a line PATH
FROM TO. A body's outside is its first line, negative: -1 for a module, and -5 for a function whose
`def` stands in line 5.

example: coverage run --branch examples/countdown.py
         coverage report -m
";

fn main(rt: HostRuntime) -> ExitCode {
    match run(&rt) {
        Ok(status) => ExitCode::from(status),
        Err(_) => ExitCode::from(NO_MEMORY),
    }
}

/// Answers `--help` and `--version`, and hands every other list of words to `coverage`.
fn run(rt: &HostRuntime) -> Result<u8, AllocError> {
    let words = words(rt)?;
    if words.len() == 1 && words[0].as_str() == "--help" {
        return Ok(shown(rt.print(HELP)));
    }
    if words.len() == 1 && words[0].as_str() == "--version" {
        return Ok(shown(rt.println("coverage 0.1")));
    }
    let mut plugins: Vec<Box<dyn ContextPlugin>> = Vec::new(rt.alloc());
    let prefix = PrefixPlugin::new(rt.alloc(), PREFIX, LABELS)?;
    plugins.push(Box::new(rt.alloc(), prefix)?)?;
    let mut shelf = FolderShelf::new(rt.alloc(), rt, ".")?;
    let mut vault = FolderVault::new(rt.alloc(), rt, ".")?;
    let mut input = StdSource::new(rt)?;
    let mut out = StdSink::new(rt, Stream::Output)?;
    let mut err = StdSink::new(rt, Stream::Error)?;
    let end = coverage(
        rt.alloc(),
        &words,
        &mut shelf,
        &mut vault,
        &mut RegexMaker::new(),
        &mut input,
        &mut out,
        &mut err,
        &mut plugins,
        &mut Machine,
    );
    let status = end.status;
    drop(end);
    Ok(status)
}

fn shown(written: io::Result<()>) -> u8 {
    match written {
        Ok(()) => 0,
        Err(_) => 74,
    }
}

/// The words after the program's name. Words that aren't UTF-8 are no command: there are none then.
fn words(rt: &HostRuntime) -> Result<Vec<String>, AllocError> {
    let mut words = Vec::new(rt.alloc());
    match env::args(rt) {
        Ok(args) => {
            for word in args.skip(1) {
                words.push(word)?;
            }
            Ok(words)
        }
        Err(error) => match error.kind() {
            io::ErrorKind::OutOfMemory => Err(AllocError),
            _ => Ok(words),
        },
    }
}
