// Rows of programs that read from a terminal: it doesn't tell its bytes, and may give more of them
// after its end.
ghost use Rattle.std.specs.Prelude.{[]};
ghost use Rattle.std.proofs.Common.{lit≤};

use crate::log::Log;
use crate::programs::programs_of;
use crate::rows::store_of;
use crate::writer::Writer;
use cov_outside::{Failed, MemSink, Source};
use py_machine::{Engine, Machine};
use std::alloc::Global;
use std::test::Fail;

/// The key that ends the input: Ctrl-D.
const END: u8 = 4;

/// Gives one key at each read. At the key that ends the input it answers that it is at its end, and
/// then goes on.
#[derive(Drop)]
struct Terminal {
    keys: &'static [u8],
    at: usize,
}

impl Source for Terminal {
    ghost tells = { ⊥ };

    ghost left = { λ _. [] };

    ghost faults = { λ _. 0 };

    ghost bounded = { λ _. lit≤ tt };

    fn read(&mut self, buf: &mut [u8]) -> Result<usize, Failed> {
        if buf.is_empty() || self.at >= self.keys.len() {
            return Ok(0);
        }
        let key = self.keys[self.at];
        self.at += 1;
        if key == END {
            return Ok(0);
        }
        buf[0] = key;
        Ok(1)
    }
}

/// A script, the keys, what it writes, and how many keys it reads.
struct Row {
    title: &'static str,
    source: &'static str,
    keys: &'static [u8],
    out: &'static str,
    read: usize,
}

static ROWS: [Row; 3] = [
    Row {
        title: "Nothing is read after the end",
        source: "\
print(input())
for i in range(2):
    try:
        print(input('? '))
    except EOFError as e:
        print(e)
",
        keys: b"one\n\x04two\n",
        out: "one\n? no input\n? no input\n",
        read: 5,
    },
    Row {
        title: "A line that the end ended, and another",
        source: "print(input())\nprint(input())\n",
        keys: b"one\x04two\n",
        out: "one\ntwo\n",
        read: 8,
    },
    Row {
        title: "EOFError that isn't from the input",
        source: "\
try:
    raise EOFError('mine')
except EOFError as e:
    print(e)
print(input())
",
        keys: b"one\n",
        out: "mine\none\n",
        read: 4,
    },
];

#[test]
fn a_terminal(rt: HostRuntime) -> Result<(), Fail> {
    let alloc = rt.alloc();
    let mut found = Writer::new(alloc);
    for row in &ROWS {
        let mut input = Terminal {
            keys: row.keys,
            at: 0,
        };
        let out = written(alloc, row.source, &mut input)?;
        found.compare(row.title, "the output", out.as_str(), row.out);
        assert_eq!(rt; input.at, row.read, "{}", row.title);
    }
    assert_eq!(rt; found.done()?.as_str(), "");
    Ok(())
}

/// What a script writes, that reads from a terminal.
fn written(alloc: Global, source: &str, input: &mut Terminal) -> Result<String, Fail> {
    let programs = programs_of(alloc, source, &[])?;
    if programs.modules.is_empty() || programs.modules.len() > 4_294_967_295 {
        return Err(Fail::new("there is no module, or too many are there"));
    }
    let mut store = store_of(alloc, &programs)?;
    let mut log = Log::new(alloc, usize::MAX);
    let mut out = MemSink::new(alloc, Vec::new(alloc), Vec::new(alloc));
    let ran = Machine.run(
        alloc, &programs, &mut store, 1_000_000, &mut log, input, &mut out,
    );
    drop(ran?);
    Ok(String::from_utf8(out.into_bytes())?)
}
