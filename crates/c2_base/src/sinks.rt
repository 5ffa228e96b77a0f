// A sink in memory.
ghost use Rattle.std.specs.Prelude.{◌≡◌, ◌≤◌, vec_len, is_err, IfOk};
ghost use Rattle.c2_base.specs.Causes.{HasCause};

use crate::{Failed, NoMemory, Sink};
use std::alloc::Global;

/// A sink of fixed room, which fails at its call number `fail_at`, and at an append of one or more bytes once it is full.
/// Where `fail_at` is 0 it states the room that is left as its spare.
///
/// A count of calls that has reached its last value stands still, so where `fail_at` is that value, each call from there
/// on fails.
#[derive(Debug, Drop)]
pub struct MemSink {
    bytes: Vec<u8>,
    used: usize,
    finished: bool,
    fail_at: u64,
    calls: u64,
    faults: u64,
    ghost in_room: { used ≤ vec_len bytes },
}

impl MemSink {
    ghost use Rattle.c2_base.specs.Causes.{one_more, one_more_if};
    ghost use Rattle.c2_base.specs.InMemory.{sink_state, fresh_sink, finish_fails};

    /// An empty sink, which takes `room` bytes in all. Its calls are counted from 1; where `fail_at` is 0, none fails by
    /// its number.
    pub fn with_room(alloc: Global, room: usize, fail_at: u64) -> Result<MemSink, NoMemory>
        ensures { IfOk result (λ sink. sink_state sink ≡ fresh_sink room fail_at) }
    {
        let bytes = vec![in alloc; 0; room]?;
        Ok(MemSink {
            bytes,
            used: 0,
            finished: false,
            fail_at,
            calls: 0,
            faults: 0,
        })
    }

    /// What was written.
    pub fn bytes(&self) -> &[u8]
        ensures { result.now ≡ (sink_state self.now).bytes }
    {
        &self.bytes[..self.used]
    }

    /// Whether `finish` was called, and succeeded.
    pub fn finished(&self) -> bool
        ensures { result ≡ (sink_state self.now).finished }
    {
        self.finished
    }

    // Counts a call, and a fault where it failed.
    fn count(&mut self, failed: bool)
        ensures later { self.old.faults ≤ self.new.faults }
        ensures same { self.new ≡ record self.old {
          calls = one_more self.old.calls;
          faults = one_more_if failed self.old.faults;
        } }
    {
        self.calls = self.calls.saturating_add(1);
        if failed {
            self.faults = self.faults.saturating_add(1);
        }
    }

    // The next call is the one that fails.
    fn is_due(&self) -> bool
        ensures { result ≡ finish_fails (sink_state self.now) }
    {
        self.calls.saturating_add(1) == self.fail_at
    }
}

impl Sink for MemSink {
    ghost use Rattle.std.specs.Prelude.{◌==◌, ◌-◌, Some, None, if◌then◌else◌};
    ghost use Rattle.c2_base.specs.InMemory.{sink_state, append_fails, finish_fails, after_append};
    ghost use Rattle.c2_base.specs.InMemory.{after_finish, room_for};

    ghost written = { λ s. Some (sink_state s).bytes };

    ghost finished = { λ s. s.finished };

    ghost faults = { λ s. s.faults };

    ghost spare = { λ s. if s.fail_at == 0 then Some (vec_len s.bytes - s.used) else None };

    fn append(&mut self, bytes: &[u8]) -> Result<usize, Failed>
        ensures fails { is_err result ≡ append_fails (sink_state self.old) bytes.now }
        ensures takes { IfOk result (λ n. n ≡ room_for (sink_state self.old) bytes.now) }
        ensures cause { HasCause (sink_state self.old).faults (sink_state self.new).faults result }
        ensures state { sink_state self.new ≡ after_append (sink_state self.old) bytes.now }
    {
        let room = self.bytes.len() - self.used;
        let failed = self.is_due() || (room == 0 && !bytes.is_empty());
        self.count(failed);
        if failed {
            return Err(Failed);
        }
        let count = room.min(bytes.len());
        let end = self.used + count;
        self.bytes[self.used..end].copy_from_slice(&bytes[..count]);
        self.used = end;
        Ok(count)
    }

    fn finish(&mut self) -> Result<(), Failed>
        ensures fails { is_err result ≡ finish_fails (sink_state self.old) }
        ensures cause { HasCause (sink_state self.old).faults (sink_state self.new).faults result }
        ensures state { sink_state self.new ≡ after_finish (sink_state self.old) }
    {
        let failed = self.is_due();
        self.count(failed);
        if failed {
            return Err(Failed);
        }
        self.finished = true;
        Ok(())
    }
}
