// Sinks in memory, and the one that keeps nothing.
ghost use Rattle.std.specs.Prelude.{◌≡◌, ◌≤◌, ◌↔◌, [], ◌++◌, OnOk, OnErr, IsErrOf};
ghost use Rattle.std.proofs.Common.{lit≤};

use crate::failing::Failing;
use crate::sink::{Sink, SinkError};
use std::alloc::Global;

/// A sink in memory whose calls of the given numbers fail.
#[derive(Drop)]
pub struct MemSink {
    contents: Vec<u8>,
    failing: Failing,
}

impl MemSink {
    ghost use Rattle.cov_outside.specs.Memory.{sink_contents, sink_calls, sink_faults};

    /// Calls are counted from 0. A failing call leaves the contents as they were.
    pub fn new(_alloc: Global, contents: Vec<u8>, failing: Vec<u64>) -> MemSink
        ensures contents { sink_contents result ≡ contents.items }
        ensures calls { sink_calls result ≡ record { failing = failing.items; count = 0 } }
        ensures faults { sink_faults result ≡ 0 }
    {
        MemSink {
            contents,
            failing: Failing::new(failing),
        }
    }

    /// What the sink holds.
    pub fn into_bytes(self) -> Vec<u8>
        ensures { result.items ≡ sink_contents self }
    {
        self.contents
    }
}

impl Sink for MemSink {
    ghost use Rattle.cov_outside.specs.Calls.{FailsNext, after_call};
    ghost use Rattle.cov_outside.specs.Counts.{Rose};
    ghost use Rattle.cov_outside.specs.Memory.{sink_contents, sink_calls, sink_faults};

    ghost tells = { Unit {0} };

    ghost contents = { sink_contents };

    ghost allocates = { Unit {0} };

    ghost faults = { sink_faults };

    ghost bounded = { λ sink. sink.failing.bounded };

    fn write(&mut self, _alloc: Global, piece: &[u8]) -> Result<(), SinkError>
        // Exactly the calls fail that the list names.
        ensures fails { IsErrOf result SinkError.Failed ↔ FailsNext (sink_calls self.old) }
        ensures calls { sink_calls self.new ≡ after_call (sink_calls self.old) }

        ensures ok { OnOk result (sink_contents self.new ≡ sink_contents self.old ++ piece.now) }
        ensures kept { OnErr result (sink_contents self.new ≡ sink_contents self.old) }

        ensures count { sink_faults self.old ≤ sink_faults self.new }
        ensures failed { IsErrOf result SinkError.Failed
            → Rose (sink_faults self.old) (sink_faults self.new) }
    {
        if self.failing.fails() {
            return Err(SinkError::Failed);
        }
        self.contents.extend_from_slice(piece)?;
        Ok(())
    }
}

/// A sink in memory that never fails.
#[derive(Drop)]
pub struct SureSink {
    contents: Vec<u8>,
}

impl SureSink {
    pub fn new(_alloc: Global, contents: Vec<u8>) -> SureSink
        ensures { ⟦<SureSink as Sink>⟧.contents result ≡ contents.items }
    {
        SureSink { contents }
    }

    /// What the sink holds.
    pub fn into_bytes(self) -> Vec<u8>
        ensures { result.items ≡ ⟦<SureSink as Sink>⟧.contents self }
    {
        self.contents
    }
}

impl Sink for SureSink {
    ghost tells = { Unit {0} };

    ghost contents = { λ sink. sink.contents.items };

    ghost allocates = { Unit {0} };

    ghost faults = { λ _. 0 };

    ghost bounded = { λ _. lit≤ tt };

    fn write(&mut self, _alloc: Global, piece: &[u8]) -> Result<(), SinkError> {
        self.contents.extend_from_slice(piece)?;
        Ok(())
    }
}

/// A sink that keeps nothing and never refuses a write.
#[derive(Drop)]
pub struct NullSink;

impl Sink for NullSink {
    ghost tells = { ⊥ };

    ghost contents = { λ _. [] };

    ghost allocates = { ⊥ };

    ghost faults = { λ _. 0 };

    ghost bounded = { λ _. lit≤ tt };

    fn write(&mut self, _alloc: Global, _piece: &[u8]) -> Result<(), SinkError> {
        Ok(())
    }
}
