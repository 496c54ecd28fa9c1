//! A sink over memory.

ghost use Rattle.std.specs.Prelude.{◌≡◌, ◌<◌, Some, length, true, IfOk};
ghost use Rattle.std.specs.Io.{WritesAtMost};
ghost use Rattle.std.specs.Io.KnownBytes.{WriteAppends};
ghost use Rattle.fm_io.specs.Causes.{HasCause, Rose};
ghost use Rattle.fm_io.specs.Memory.{new_tray, tray_fails, write_size, tray_after, flushed_tray, AnswersUnless};

use crate::piece::is_listed;
use crate::sink::Sink;
use crate::source::Failed;
use fm_base::NoMemory;
use std::alloc::Global;
use std::marker::Model;

/// Takes pieces up to its room, and fails at listed writes. Contracts see it as a `Tray`: the bytes
/// written, the most bytes of a write and of all, the writes so far, those that fail, the faults so
/// far, and whether all was flushed.
#[derive(Drop)]
pub struct MemSink {
    bytes: Vec<u8>,
    piece: usize,
    room: usize,
    calls: u64,
    fail_at: Vec<u64>,
    faults: u64,
    flushed: bool,
}

impl Model for MemSink {
    ghost use Rattle.std.specs.Prelude.{◌≤◌, ◌<◌, length, vec_capacity};
    ghost use Rattle.fm_io.specs.Memory.{Tray};

    ghost Value = { Tray };

    ghost view = { λ s. record {
      bytes = s.bytes.items;
      piece = s.piece;
      room = s.room;
      calls = s.calls;
      fail_at = s.fail_at.items;
      faults = s.faults;
      flushed = s.flushed;
    } };

    ghost invariant = { λ s. (0 < s.piece) × (s.room ≤ vec_capacity s.bytes) };
}

impl MemSink {
    /// Takes at most `piece` bytes a write, which is at least 1, and `room` in all. The writes numbered
    /// in `fail_at`, count_after from 1, fail. Takes the memory of its room at once.
    pub fn new(
        alloc: Global,
        piece: usize,
        room: usize,
        fail_at: Vec<u64>,
    ) -> Result<MemSink, NoMemory>
        requires { 0 < piece }
        ensures { IfOk result (λ s. s ≡ new_tray piece room fail_at.items) }
    {
        Ok(MemSink {
            bytes: Vec::with_capacity(alloc, room)?,
            piece,
            room,
            calls: 0,
            fail_at,
            faults: 0,
            flushed: true,
        })
    }

    /// The bytes written so far.
    pub fn bytes(&self) -> &[u8]
        ensures { result.now ≡ self.now.bytes }
    {
        &self.bytes
    }
}

impl Sink for MemSink {
    ghost written = { λ s. Some s.bytes };

    ghost faults = { λ s. s.faults };

    ghost flushed = { λ s. s.flushed ≡ true };

    /// A full room takes none of a piece that isn't empty, which is a fault.
    fn write(&mut self, buf: &[u8]) -> Result<usize, Failed>
        ensures bound { WritesAtMost result buf.now }
        ensures bytes { WriteAppends (Some self.old.bytes) (Some self.new.bytes) result buf.now }
        ensures cause { HasCause self.old.faults self.new.faults result }
        ensures stuck { result ≡ Ok 0 → 0 < length buf.now → Rose self.old.faults self.new.faults }
        ensures answer { AnswersUnless (tray_fails self.old) (write_size self.old (length buf.now)) result }
        ensures after { self.new ≡ tray_after self.old buf.now }
    {
        let fails = is_listed(&self.fail_at, self.calls);
        self.calls = self.calls.saturating_add(1);
        self.flushed = false;
        if fails {
            self.faults = self.faults.saturating_add(1);
            return Err(Failed);
        }
        let room = self.room.saturating_sub(self.bytes.len());
        if room == 0 && !buf.is_empty() {
            self.faults = self.faults.saturating_add(1);
            return Ok(0);
        }
        let count = room.min(buf.len()).min(self.piece);
        // The room was taken when the sink was made.
        self.bytes.extend_from_slice(&buf[..count]).unwrap();
        Ok(count)
    }

    fn flush(&mut self) -> Result<(), Failed>
        ensures answer { result ≡ Ok tt }
        ensures after { self.new ≡ flushed_tray self.old }
    {
        self.flushed = true;
        Ok(())
    }
}
