ghost use Rattle.std.specs.Prelude.{◌≡◌, ◌<◌, ◌↔◌, length, min, Contains, IfOk, IsErr, MatchResult};
ghost use Rattle.std.specs.Io.{ReadsAtMost};
ghost use Rattle.std.specs.Io.KnownBytes.{ReadConsumes};
ghost use Rattle.lf_outside.specs.Causes.{HasCause};

use crate::streams::{Failed, Source};
use lf_base::OutOfMemory;
use std::alloc::Global;
use std::marker::Model;

/// A source of bytes in memory, which fails at the calls of a list.
#[derive(Drop)]
pub struct MemSource {
    bytes: Vec<u8>,
    at: usize,
    most: usize,
    failing: Vec<u64>,
    calls: u64,
    faults: u64,
}

impl Model for MemSource {
    ghost use Rattle.std.specs.Prelude.{◌≤◌, ◌<◌, drop, length};
    ghost use Rattle.lf_outside.specs.Memory.{SourceState, source_state};

    ghost Value = { SourceState };

    ghost view = { λ s. source_state (drop s.at s.bytes.items) s.most s.failing.items s.calls s.faults };

    ghost invariant = { λ s. (s.at ≤ length s.bytes.items) × (0 < s.most) };
}

impl MemSource {
    ghost use Rattle.lf_outside.specs.Memory.{fresh_source};

    /// A source of these bytes that gives at most `most` of them a call, and fails
    /// at the calls that `failing` numbers from 0.
    pub fn new(
        alloc: Global,
        bytes: &[u8],
        most: usize,
        failing: &[u64],
    ) -> Result<MemSource, OutOfMemory>
        requires { 0 < most }
        ensures { IfOk result (λ source. source ≡ fresh_source bytes.now most failing.now) }
    {
        let bytes = bytes.to_vec(alloc)?;
        let failing = failing.to_vec(alloc)?;
        Ok(MemSource {
            bytes,
            at: 0,
            most,
            failing,
            calls: 0,
            faults: 0,
        })
    }
}

impl Source for MemSource {
    ghost use Rattle.std.specs.Prelude.{Some};
    ghost use Rattle.lf_outside.specs.Memory.{after_read, after_failed_read};

    ghost left = { λ s. Some s.left };

    ghost faults = { λ s. s.faults };

    fn read(&mut self, buffer: &mut [u8]) -> Result<usize, Failed>
        requires { 0 < length buffer.old }
        ensures bound { ReadsAtMost result buffer.new }
        ensures bytes { ReadConsumes (Some self.old.left) (Some self.new.left) result buffer.new }
        ensures cause { HasCause self.old.faults self.new.faults result }

        // It fails exactly at the numbered calls, and else gives all that it may.
        ensures fails { IsErr result ↔ Contains self.old.failing self.old.calls }
        ensures gives { IfOk result (λ n. n ≡ min (length self.old.left) (min (length buffer.old) self.old.most)) }
        ensures after { MatchResult result (λ n. self.new ≡ after_read self.old n) (λ _. self.new ≡ after_failed_read self.old) }
    {
        let call = self.calls;
        self.calls = self.calls.saturating_add(1);
        if self.failing.contains(&call) {
            self.faults = self.faults.saturating_add(1);
            return Err(Failed);
        }
        let rest = &self.bytes[self.at..];
        let count = rest.len().min(buffer.len().min(self.most));
        buffer[..count].copy_from_slice(&rest[..count]);
        self.at += count;
        Ok(count)
    }
}
