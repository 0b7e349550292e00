// The standard streams.
ghost use Rattle.std.specs.Prelude.{◌≡◌, ◌≤◌, [], length, IfOk};
ghost use Rattle.cov_outside.specs.Counts.{greatest};

use crate::sink::{Sink, SinkError};
use crate::source::{Failed, Source};
use std::alloc::{AllocError, Global};
use std::io;
use std::io::{ErrorKind, Read, Stdin, Write};

/// Standard input. It takes no byte that a read didn't ask for.
#[derive(Drop)]
pub struct StdSource {
    stdin: Stdin,
    faults: u64,
    ghost bounded: { faults ≤ greatest },
}

impl StdSource {
    pub fn new(rt: &HostRuntime) -> Result<StdSource, AllocError>
        ensures { IfOk result (λ source. ⟦<StdSource as Source>⟧.faults source ≡ 0) }
    {
        Ok(StdSource {
            stdin: rt.stdin(),
            faults: 0,
        })
    }
}

impl Source for StdSource {
    ghost tells = { ⊥ };

    ghost left = { λ _. [] };

    ghost faults = { λ source. source.faults };

    ghost bounded = { λ source. source.bounded };

    fn read(&mut self, buf: &mut [u8]) -> Result<usize, Failed> {
        let mut bytes = [0; 512];
        let room = buf.len().min(bytes.len());
        match read_again(&mut self.stdin, &mut bytes[..room]) {
            Ok(count) => {
                buf[..count].copy_from_slice(&bytes[..count]);
                Ok(count)
            }
            Err(_) => {
                self.faults = self.faults.saturating_add(1);
                Err(Failed)
            }
        }
    }
}

/// Reads, and does so again where a signal interrupts it.
fn read_again(stdin: &mut Stdin, buf: &mut [u8]) -> io::Result<usize>
    ensures { IfOk result (λ n. n ≤ length buf.old) }
{
    for _ in 0..u64::MAX {
        match stdin.read(buf) {
            Err(error) if error.kind() == ErrorKind::Interrupted => {}
            done => return done,
        }
    }
    Err(io::Error::from(ErrorKind::Interrupted))
}

/// One of the two streams for output.
#[derive(Clone, Copy, Debug, PartialEq, Eq)]
pub enum Stream {
    Output,
    Error,
}

/// Standard output or standard error.
#[derive(Drop)]
pub struct StdSink {
    rt: HostRuntime,
    stream: Stream,
    faults: u64,
    ghost bounded: { faults ≤ greatest },
}

impl StdSink {
    ghost use Rattle.cov_outside.specs.Real.{stream_of};

    pub fn new(rt: &HostRuntime, stream: Stream) -> Result<StdSink, AllocError>
        ensures stream { IfOk result (λ sink. stream_of sink ≡ stream) }
        ensures faults { IfOk result (λ sink. ⟦<StdSink as Sink>⟧.faults sink ≡ 0) }
    {
        Ok(StdSink {
            rt: *rt,
            stream,
            faults: 0,
        })
    }
}

impl Sink for StdSink {
    ghost tells = { ⊥ };

    ghost contents = { λ _. [] };

    ghost allocates = { ⊥ };

    ghost faults = { λ sink. sink.faults };

    ghost bounded = { λ sink. sink.bounded };

    // `write_all` writes until the piece is out, and fails at a write that takes nothing.
    fn write(&mut self, _alloc: Global, piece: &[u8]) -> Result<(), SinkError> {
        let written = match self.stream {
            Stream::Output => self.rt.stdout().write_all(piece),
            Stream::Error => self.rt.stderr().write_all(piece),
        };
        if written.is_ok() {
            return Ok(());
        }
        self.faults = self.faults.saturating_add(1);
        Err(SinkError::Failed)
    }
}
