//! Sessions in which one call of one object fails: each call in turn, until the session meets no
//! fault. One is done command by command, and once more as a script. Another is a script that ends
//! in a refusal.

use crate::harness::{Failing, NONE, World, shelf_of};
use crate::sources::FIRST_RUN;
use cov_data::Data;
use cov_vault::Content;
use std::alloc::{AllocError, Global};
use std::process::Abort;
use std::test::Fail;

/// The objects whose calls may fail.
#[derive(Clone, Copy, PartialEq, Eq)]
enum Object {
    Shelf,
    Vault,
    Input,
    Out,
}

/// Commands that run, report, join and remove.
static COMMANDS: [&str; 7] = [
    "run --branch a.py",
    "run --append --branch a.py",
    "run --data-file=e asks.py",
    "report -m",
    "json",
    "combine --data-file=c",
    "erase",
];

const JOIN: &str = "combine --data-file=c";

/// A file of commands: the words that do it, its lines, and how it ends where no call fails.
struct Script {
    words: &'static str,
    lines: &'static [&'static str],
    status: u8,
    err: &'static str,
}

/// The commands as a script, and one whose last line is refused.
static SCRIPTS: [Script; 2] = [
    Script {
        words: "script s.txt",
        lines: &[
            "run --branch a.py",
            "run --append --branch a.py",
            "run --data-file=e asks.py",
            "report -m",
            "json",
            "combine --data-file=c",
            "erase",
        ],
        status: 0,
        err: "",
    },
    Script {
        words: "script r.txt",
        lines: &["run --branch a.py", "erase", "report"],
        status: 1,
        err: "coverage: no data .coverage\n",
    },
];

/// The numbers of the calls that fail.
static CALLS: [&[u64]; 28] = [
    &[0],
    &[1],
    &[2],
    &[3],
    &[4],
    &[5],
    &[6],
    &[7],
    &[8],
    &[9],
    &[10],
    &[11],
    &[12],
    &[13],
    &[14],
    &[15],
    &[16],
    &[17],
    &[18],
    &[19],
    &[20],
    &[21],
    &[22],
    &[23],
    &[24],
    &[25],
    &[26],
    &[27],
];

/// This call of this object fails.
fn failing(object: Object, call: &'static [u64]) -> Failing {
    match object {
        Object::Shelf => Failing {
            shelf: call,
            ..NONE
        },
        Object::Vault => Failing {
            vault: call,
            ..NONE
        },
        Object::Input => Failing {
            input: call,
            ..NONE
        },
        Object::Out => Failing { out: call, ..NONE },
    }
}

/// What is told of its fault.
fn fault_of(object: Object) -> &'static str {
    match object {
        Object::Shelf => "coverage: files failed\n",
        Object::Vault => "coverage: data store failed\n",
        Object::Input => "coverage: reading input failed\n",
        Object::Out => "coverage: writing output failed\n",
    }
}

/// Two programs, two files of commands, and two data that are joined.
fn world_of(alloc: Global, failing: Failing) -> Result<World, AllocError> {
    let mut lines = String::new(alloc);
    for words in &COMMANDS {
        lines.push_str(*words)?;
        lines.push('\n')?;
    }
    let files = shelf_of(
        alloc,
        &[
            ("a.py", FIRST_RUN),
            ("asks.py", "print(input())\n"),
            ("s.txt", lines.as_str()),
            ("r.txt", "run --branch a.py\nerase\nreport\n"),
        ],
    )?;
    let mut contents = Vec::new(alloc);
    for name in ["c.1", "c.2"] {
        let name = String::from_str(alloc, name)?;
        let mut data = Data::new(alloc, false);
        data.add_path("b.py")?;
        contents.push((name, Content::Good(data)))?;
    }
    World::new(alloc, files, contents, failing)
}

/// The rows of the data file, the report that was put, and the names of the data.
fn state(alloc: Global, world: &mut World) -> Result<String, Fail> {
    let mut text = world.rows(alloc, ".coverage")?;
    text.push_str(world.file(alloc, "coverage.json")?.as_str())?;
    text.push_str(world.names(alloc)?.as_str())?;
    Ok(text)
}

/// Whether the call stops the session. The answer is the object's fault then, and shelf and vault
/// are as before the command, and a prefix of its output is written. A join that the vault stops
/// may have saved and removed some data.
fn stops(
    rt: &impl Abort,
    alloc: Global,
    object: Object,
    call: &'static [u64],
) -> Result<bool, Fail> {
    let mut world = world_of(alloc, failing(object, call))?;
    let mut sure = world_of(alloc, NONE)?;
    for words in &COMMANDS {
        let found = world.answer(alloc, *words, "ab\n")?;
        if found.status != 0 {
            assert_eq!(rt; found.status, 74, "{words}");
            assert_eq!(rt; found.err.as_str(), fault_of(object), "{words}");
            if object != Object::Vault || *words != JOIN {
                let before = state(alloc, &mut sure)?;
                let after = state(alloc, &mut world)?;
                assert_eq!(rt; after.as_str(), before.as_str(), "{words}");
            }
            let whole = sure.answer(alloc, *words, "ab\n")?;
            let is_prefix = whole.out.as_str().starts_with(found.out.as_str());
            assert!(rt; is_prefix, "a prefix is written: {words}");
            return Ok(true);
        }
        let _ = sure.answer(alloc, *words, "ab\n")?;
    }
    Ok(false)
}

/// How many calls stop the session, one after the other.
fn stopped_by(rt: &impl Abort, alloc: Global, object: Object) -> Result<usize, Fail> {
    for (at, call) in CALLS.iter().enumerate() {
        if !stops(rt, alloc, object, *call)? {
            return Ok(at);
        }
    }
    Ok(CALLS.len())
}

/// The state after so many lines of a script.
fn state_after(alloc: Global, script: &Script, count: usize) -> Result<String, Fail> {
    let mut world = world_of(alloc, NONE)?;
    for words in script.lines.iter().take(count) {
        let _ = world.answer(alloc, *words, "ab\n")?;
    }
    state(alloc, &mut world)
}

/// Whether the call stops the script. The answer is the object's fault then, and shelf and vault
/// are as the lines left them whose status was written. A join that the vault stops may have saved
/// and removed some data, and output may refuse the status of a line that was done.
fn stops_script(
    rt: &impl Abort,
    alloc: Global,
    script: &Script,
    object: Object,
    call: &'static [u64],
) -> Result<bool, Fail> {
    let mut world = world_of(alloc, failing(object, call))?;
    let found = world.answer(alloc, script.words, "ab\n")?;
    if found.status == script.status {
        assert_eq!(rt; found.err.as_str(), script.err, "{}", script.words);
        return Ok(false);
    }
    assert_eq!(rt; found.status, 74);
    assert_eq!(rt; found.err.as_str(), fault_of(object));
    let done = found
        .out
        .as_str()
        .lines()
        .filter(|line| line.starts_with("= "))
        .count();
    let is_join = match script.lines.get(done) {
        Some(words) => object == Object::Vault && *words == JOIN,
        None => false,
    };
    let after = state(alloc, &mut world)?;
    if is_join || after.as_str() == state_after(alloc, script, done)?.as_str() {
        return Ok(true);
    }
    let later = state_after(alloc, script, done.saturating_add(1))?;
    assert!(rt; object == Object::Out, "after {done} lines");
    assert_eq!(rt; after.as_str(), later.as_str(), "after {done} lines");
    Ok(true)
}

/// How many calls stop the script, one after the other.
fn script_stopped_by(
    rt: &impl Abort,
    alloc: Global,
    script: &Script,
    object: Object,
) -> Result<usize, Fail> {
    for (at, call) in CALLS.iter().enumerate() {
        if !stops_script(rt, alloc, script, object, *call)? {
            return Ok(at);
        }
    }
    Ok(CALLS.len())
}

/// The objects, and how many of their calls stop the session and each script.
static COUNTS: [(Object, usize, [usize; 2]); 4] = [
    (Object::Shelf, 13, [14, 5]),
    (Object::Vault, 16, [16, 4]),
    (Object::Input, 3, [3, 0]),
    (Object::Out, 1, [11, 3]),
];

/// Each call of the session, one by one.
#[test]
fn calls_of_a_session(rt: HostRuntime) -> Result<(), Fail> {
    for (object, calls, _) in &COUNTS {
        let count = stopped_by(&rt, rt.alloc(), *object)?;
        assert_eq!(&rt; count, *calls, "{}", fault_of(*object));
    }
    Ok(())
}

/// Each call of the scripts, one by one.
#[test]
fn calls_of_scripts(rt: HostRuntime) -> Result<(), Fail> {
    for (object, _, calls) in &COUNTS {
        for (script, wanted) in SCRIPTS.iter().zip(calls) {
            let count = script_stopped_by(&rt, rt.alloc(), script, *object)?;
            assert_eq!(&rt; count, *wanted, "{}: {}", script.words, fault_of(*object));
        }
    }
    Ok(())
}
