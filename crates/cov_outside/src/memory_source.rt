// Sources in memory.
ghost use Rattle.std.specs.Prelude.{◌≡◌, ℕ, ◌<◌, ◌≤◌, List, [], ◌++◌, length, take, drop, IfOk, IsErr, OnErr, ◌↔◌};
ghost use Rattle.std.proofs.Common.{lit≤};

use crate::failing::Failing;
use crate::source::{Failed, Source};
use std::marker::Model;

/// Bytes that are taken from the front.
#[derive(Drop)]
struct Unread {
    bytes: Vec<u8>,
    at: usize,
}

impl Model for Unread {
    ghost Value = { List ℕ };

    ghost view = { λ unread. drop unread.at unread.bytes.items };

    ghost invariant = { λ unread. unread.at ≤ length unread.bytes.items };
}

impl Unread {
    fn new(bytes: Vec<u8>) -> Unread
        ensures { result ≡ bytes.items }
    {
        Unread { bytes, at: 0 }
    }

    /// Moves as many bytes as there are and fit into the front of `buf`.
    fn take_into(&mut self, buf: &mut [u8]) -> usize
        ensures fits { result ≤ length buf.old }
        ensures moved { self.old ≡ take result buf.new ++ self.new }
        ensures rest { drop result buf.new ≡ drop result buf.old }
        ensures end { 0 < length buf.old → result ≡ 0 → self.new ≡ [] }
    {
        let left = &self.bytes.as_slice()[self.at..];
        let count = buf.len().min(left.len());
        buf[..count].copy_from_slice(&left[..count]);
        self.at += count;
        count
    }
}

/// A source in memory whose calls of the given numbers fail.
#[derive(Drop)]
pub struct MemSource {
    contents: Unread,
    failing: Failing,
}

impl MemSource {
    ghost use Rattle.cov_outside.specs.Memory.{source_left, source_calls, source_faults};

    /// Calls are counted from 0. A failing call leaves the contents as they were.
    pub fn new(contents: Vec<u8>, failing: Vec<u64>) -> MemSource
        ensures left { source_left result ≡ contents.items }
        ensures calls { source_calls result ≡ record { failing = failing.items; count = 0 } }
        ensures faults { source_faults result ≡ 0 }
    {
        MemSource {
            contents: Unread::new(contents),
            failing: Failing::new(failing),
        }
    }
}

impl Source for MemSource {
    ghost use Rattle.cov_outside.specs.Calls.{FailsNext, after_call};
    ghost use Rattle.cov_outside.specs.Counts.{Rose};
    ghost use Rattle.cov_outside.specs.Memory.{source_left, source_calls, source_faults};

    ghost tells = { Unit {0} };

    ghost left = { source_left };

    ghost faults = { source_faults };

    ghost bounded = { λ source. source.failing.bounded };

    fn read(&mut self, buf: &mut [u8]) -> Result<usize, Failed>
        // Exactly the calls fail that the list names.
        ensures fails { IsErr result ↔ FailsNext (source_calls self.old) }
        ensures calls { source_calls self.new ≡ after_call (source_calls self.old) }

        ensures fits { IfOk result (λ n. n ≤ length buf.old) }
        ensures moved { IfOk result (λ n.
            source_left self.old ≡ take n buf.new ++ source_left self.new) }
        ensures rest { IfOk result (λ n. drop n buf.new ≡ drop n buf.old) }
        ensures end { 0 < length buf.old → IfOk result (λ n. n ≡ 0 → source_left self.new ≡ []) }

        ensures kept { OnErr result (source_left self.new ≡ source_left self.old) }
        ensures same_buf { OnErr result (buf.new ≡ buf.old) }

        ensures count { source_faults self.old ≤ source_faults self.new }
        ensures failed { OnErr result (Rose (source_faults self.old) (source_faults self.new)) }
    {
        if self.failing.fails() {
            return Err(Failed);
        }
        Ok(self.contents.take_into(buf))
    }
}

/// A source in memory that never fails.
#[derive(Drop)]
pub struct SureSource {
    contents: Unread,
}

impl SureSource {
    pub fn new(contents: Vec<u8>) -> SureSource
        ensures { ⟦<SureSource as Source>⟧.left result ≡ contents.items }
    {
        SureSource {
            contents: Unread::new(contents),
        }
    }
}

impl Source for SureSource {
    ghost tells = { Unit {0} };

    ghost left = { λ source. source.contents };

    ghost faults = { λ _. 0 };

    ghost bounded = { λ _. lit≤ tt };

    fn read(&mut self, buf: &mut [u8]) -> Result<usize, Failed> {
        Ok(self.contents.take_into(buf))
    }
}
