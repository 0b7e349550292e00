//! Savings whose files stop: what is read afterwards is what was there, or what was saved.
//!
//! The files are disks in memory. One of them takes so many calls, and then each call of it fails.
//! The files are opened again as a crash of the machine leaves them, without what was not synced,
//! or as the end of the process alone leaves them, with all that was written.

use crate::bases::{held, save};
use crate::texts::{Given, data_of};
use cov_data::Data;
use sqlite::{Connection, FileStore, Files, Options};
use sqlite_disk::{Crash, Disk, Fuse, Memory};
use std::alloc::{AllocError, Global};
use std::io;
use std::process::Abort;
use std::test::Fail;

/// A disk in memory that stops.
type Stopping = Fuse<Memory>;

/// How many calls a disk takes that doesn't stop.
const ALL: u64 = u64::MAX;

/// A disk with these bytes.
fn new_disk(alloc: Global, bytes: &[u8], calls: u64) -> io::Result<Stopping> {
    let mut memory = Memory::new(alloc);
    memory.write_at(0, bytes)?;
    memory.sync()?;
    Ok(Fuse::new(memory, calls))
}

/// What these files hold, on disks that take so many calls.
fn copied(
    alloc: Global,
    files: &Files<Stopping>,
    log_calls: u64,
    base_calls: u64,
) -> io::Result<Files<Stopping>> {
    let log = new_disk(alloc, files.log.inner().bytes(), log_calls)?;
    let db = new_disk(alloc, files.db.inner().bytes(), base_calls)?;
    Ok(Files { log, db })
}

fn opened(
    alloc: Global,
    files: Files<Stopping>,
) -> Result<Connection<FileStore<Stopping>>, Files<Stopping>> {
    if !files.may_be_used() {
        return Err(files);
    }
    match Connection::open_files(alloc, files, Options::new(7)) {
        Ok(base) => Ok(base),
        Err((_, left)) => Err(left.into_files()),
    }
}

/// How far a saving came, and its files.
#[derive(Drop)]
struct Ended {
    saved: bool,
    closed: bool,
    files: Files<Stopping>,
}

fn closed(base: Connection<FileStore<Stopping>>, saved: bool) -> Ended {
    match base.close_files() {
        Ok(files) => Ended {
            saved,
            closed: true,
            files,
        },
        Err((_, store)) => Ended {
            saved,
            closed: false,
            files: store.close(),
        },
    }
}

/// Opens the files, saves, and closes them.
fn try_saving(alloc: Global, files: Files<Stopping>, content: &Data, fresh: bool) -> Ended {
    match opened(alloc, files) {
        Ok(mut base) => {
            let saved = save(alloc, &mut base, content, fresh).is_ok();
            closed(base, saved)
        }
        Err(files) => Ended {
            saved: false,
            closed: false,
            files,
        },
    }
}

fn held_of(alloc: Global, files: Files<Stopping>) -> Result<String, AllocError> {
    match opened(alloc, files) {
        Ok(mut base) => held(alloc, &mut base),
        Err(_) => String::from_str(alloc, "not opened"),
    }
}

/// What a crash of the machine leaves.
fn crashed(mut files: Files<Stopping>) -> Files<Stopping> {
    files.log.crash();
    files.db.crash();
    files
}

/// Which file stops, and whether what was written and not synced is lost.
#[derive(Clone, Copy)]
enum Stop {
    Log { lost: bool },
    Base { lost: bool },
}

impl Stop {
    fn files(
        self,
        alloc: Global,
        from: &Files<Stopping>,
        calls: u64,
    ) -> io::Result<Files<Stopping>> {
        match self {
            Stop::Log { .. } => copied(alloc, from, calls, ALL),
            Stop::Base { .. } => copied(alloc, from, ALL, calls),
        }
    }

    fn left(self, alloc: Global, files: Files<Stopping>) -> io::Result<Files<Stopping>> {
        match self {
            Stop::Log { lost: true } | Stop::Base { lost: true } => Ok(crashed(files)),
            Stop::Log { lost: false } | Stop::Base { lost: false } => {
                copied(alloc, &files, ALL, ALL)
            }
        }
    }
}

/// A saving in files, what they hold before, and what they hold when it is done.
#[derive(Clone, Copy)]
struct Saving<'a> {
    files: &'a Files<Stopping>,
    content: &'a Data,
    fresh: bool,
    before: &'static str,
    after: &'static str,
}

/// Stops a saving after so many calls, and tells whether it met no stop.
fn assert_stop(
    rt: &impl Abort,
    alloc: Global,
    saving: &Saving<'_>,
    stop: Stop,
    calls: u64,
) -> Result<bool, Fail> {
    let files = stop.files(alloc, saving.files, calls)?;
    let Ended {
        saved,
        closed,
        files,
    } = try_saving(alloc, files, saving.content, saving.fresh);
    let found = held_of(alloc, stop.left(alloc, files)?)?;
    assert!(rt;
        found.as_str() == saving.after || (!saved && found.as_str() == saving.before),
        "after {calls} calls, saved: {saved}: {found}"
    );
    Ok(saved && closed)
}

/// Stops a saving after each number of calls, up to the first that meets no stop.
fn assert_stops(
    rt: &impl Abort,
    alloc: Global,
    saving: &Saving<'_>,
    stop: Stop,
) -> Result<(), Fail> {
    for calls in 0..1000 {
        if assert_stop(rt, alloc, saving, stop, calls)? {
            assert!(rt; calls > 0, "no stop");
            return Ok(());
        }
    }
    Err(Fail::from("each saving stopped"))
}

const FIRST: [Given; 4] = [
    ("a.py", "", -1, 1, 1),
    ("a.py", "", 1, 2, 1),
    ("a.py", "", 2, 3, 1),
    ("a.py", "", 3, -1, 1),
];

const FIRST_TEXT: &str = "arcs;a.py . -1 1 1;a.py . 1 2 1;a.py . 2 3 1;a.py . 3 -1 1;";

/// The same with another run under a context.
const BOTH: [Given; 8] = [
    ("a.py", "", -1, 1, 1),
    ("a.py", "", 1, 2, 1),
    ("a.py", "", 2, 3, 1),
    ("a.py", "", 3, -1, 1),
    ("a.py", "c", -1, 1, 1),
    ("a.py", "c", 1, 2, 1),
    ("a.py", "c", 2, 3, 1),
    ("a.py", "c", 3, -1, 1),
];

const BOTH_TEXT: &str = "arcs;a.py . -1 1 1;a.py . 1 2 1;a.py . 2 3 1;a.py . 3 -1 1;\
    a.py c -1 1 1;a.py c 1 2 1;a.py c 2 3 1;a.py c 3 -1 1;";

fn no_files(alloc: Global) -> io::Result<Files<Stopping>> {
    let log = new_disk(alloc, b"", ALL)?;
    let db = new_disk(alloc, b"", ALL)?;
    Ok(Files { log, db })
}

/// Files with the first data.
fn first_files(alloc: Global) -> Result<Files<Stopping>, Fail> {
    let content = data_of(alloc, true, &FIRST)?;
    let Ended {
        saved,
        closed,
        files,
    } = try_saving(alloc, no_files(alloc)?, &content, true);
    if !saved || !closed {
        return Err(Fail::from("the first data were not saved"));
    }
    Ok(files)
}

/// Stops the saving of both data over the first.
fn assert_over_first(rt: &impl Abort, alloc: Global, stop: Stop) -> Result<(), Fail> {
    let files = first_files(alloc)?;
    let content = data_of(alloc, true, &BOTH)?;
    let saving = Saving {
        files: &files,
        content: &content,
        fresh: false,
        before: FIRST_TEXT,
        after: BOTH_TEXT,
    };
    assert_stops(rt, alloc, &saving, stop)
}

/// Stops the first saving in files that hold nothing.
fn assert_fresh(rt: &impl Abort, alloc: Global, stop: Stop) -> Result<(), Fail> {
    let files = no_files(alloc)?;
    let content = data_of(alloc, true, &FIRST)?;
    let saving = Saving {
        files: &files,
        content: &content,
        fresh: true,
        before: "NotSchema7",
        after: FIRST_TEXT,
    };
    assert_stops(rt, alloc, &saving, stop)
}

#[test]
fn the_log_stops_and_loses(rt: HostRuntime) -> Result<(), Fail> {
    assert_over_first(&rt, rt.alloc(), Stop::Log { lost: true })
}

#[test]
fn the_log_stops_and_keeps(rt: HostRuntime) -> Result<(), Fail> {
    assert_over_first(&rt, rt.alloc(), Stop::Log { lost: false })
}

#[test]
fn the_base_stops_and_loses(rt: HostRuntime) -> Result<(), Fail> {
    assert_over_first(&rt, rt.alloc(), Stop::Base { lost: true })
}

#[test]
fn the_base_stops_and_keeps(rt: HostRuntime) -> Result<(), Fail> {
    assert_over_first(&rt, rt.alloc(), Stop::Base { lost: false })
}

#[test]
fn a_fresh_log_stops_and_loses(rt: HostRuntime) -> Result<(), Fail> {
    assert_fresh(&rt, rt.alloc(), Stop::Log { lost: true })
}

#[test]
fn a_fresh_log_stops_and_keeps(rt: HostRuntime) -> Result<(), Fail> {
    assert_fresh(&rt, rt.alloc(), Stop::Log { lost: false })
}

#[test]
fn a_fresh_base_stops_and_loses(rt: HostRuntime) -> Result<(), Fail> {
    assert_fresh(&rt, rt.alloc(), Stop::Base { lost: true })
}

#[test]
fn a_fresh_base_stops_and_keeps(rt: HostRuntime) -> Result<(), Fail> {
    assert_fresh(&rt, rt.alloc(), Stop::Base { lost: false })
}
