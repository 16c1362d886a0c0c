ghost use Rattle.std.specs.Prelude.{◌≡◌, ◌<◌, ◌↔◌, length, min, Contains, IfOk, IsErr, MatchResult, ◌⊎◌};
ghost use Rattle.std.specs.Io.{WritesAtMost};
ghost use Rattle.std.specs.Io.KnownBytes.{WriteAppends};
ghost use Rattle.lf_outside.specs.Causes.{HasCause};

use crate::streams::{Failed, Sink};
use lf_base::OutOfMemory;
use std::alloc::Global;
use std::marker::Model;

/// A sink in memory, with room for so many bytes, which fails at the calls of a
/// list and where no room is left.
#[derive(Drop)]
pub struct MemSink {
    bytes: Vec<u8>,
    room: usize,
    most: usize,
    failing: Vec<u64>,
    calls: u64,
    faults: u64,
}

impl Model for MemSink {
    ghost use Rattle.std.specs.Prelude.{◌≤◌, ◌<◌, ◌-◌, vec_len, vec_capacity};
    ghost use Rattle.lf_outside.specs.Memory.{SinkState, sink_state};

    ghost Value = { SinkState };

    ghost view = { λ s. sink_state s.bytes.items (s.room - vec_len s.bytes) s.most s.failing.items s.calls s.faults };

    ghost invariant = { λ s. (vec_len s.bytes ≤ s.room) × (s.room ≤ vec_capacity s.bytes) × (0 < s.most) };
}

impl MemSink {
    ghost use Rattle.lf_outside.specs.Memory.{fresh_sink};

    /// An empty sink that takes at most `most` bytes a call, and fails at the calls
    /// that `failing` numbers from 0. It takes all its memory now.
    pub fn new(
        alloc: Global,
        room: usize,
        most: usize,
        failing: &[u64],
    ) -> Result<MemSink, OutOfMemory>
        requires { 0 < most }
        ensures { IfOk result (λ sink. sink ≡ fresh_sink room most failing.now) }
    {
        let bytes = Vec::with_capacity(alloc, room)?;
        let failing = failing.to_vec(alloc)?;
        Ok(MemSink {
            bytes,
            room,
            most,
            failing,
            calls: 0,
            faults: 0,
        })
    }

    /// The bytes that the sink holds.
    pub fn bytes(&self) -> &[u8]
        ensures { result.now ≡ self.now.held }
    {
        &self.bytes
    }
}

impl Sink for MemSink {
    ghost use Rattle.std.specs.Prelude.{Some};
    ghost use Rattle.lf_outside.specs.Memory.{after_write, after_failed_write};

    ghost held = { λ s. Some s.held };

    ghost faults = { λ s. s.faults };

    fn write(&mut self, bytes: &[u8]) -> Result<usize, Failed>
        requires { 0 < length bytes.now }
        ensures bound { WritesAtMost result bytes.now }
        ensures some { IfOk result (λ n. 0 < n) }
        ensures bytes { WriteAppends (Some self.old.held) (Some self.new.held) result bytes.now }
        ensures cause { HasCause self.old.faults self.new.faults result }

        // It fails exactly at the numbered calls and without room, and else takes all that it may.
        ensures fails { IsErr result ↔ ((self.old.room ≡ 0) ⊎ Contains self.old.failing self.old.calls) }
        ensures takes { IfOk result (λ n. n ≡ min (length bytes.now) (min self.old.room self.old.most)) }
        ensures after { MatchResult result (λ n. self.new ≡ after_write self.old n bytes.now)
            (λ _. self.new ≡ after_failed_write self.old) }
    {
        let call = self.calls;
        self.calls = self.calls.saturating_add(1);
        let room = self.room - self.bytes.len();
        if room == 0 || self.failing.contains(&call) {
            self.faults = self.faults.saturating_add(1);
            return Err(Failed);
        }
        let count = bytes.len().min(room.min(self.most));
        self.bytes.extend_from_slice(&bytes[..count]).unwrap();
        Ok(count)
    }
}
