//! Sources over memory.

ghost use Rattle.std.specs.Prelude.{◌≡◌, ◌<◌, Some, length};
ghost use Rattle.std.specs.Io.{ReadsAtMost};
ghost use Rattle.std.specs.Io.KnownBytes.{ReadConsumes};
ghost use Rattle.fm_io.specs.Causes.{HasCause};
ghost use Rattle.fm_io.specs.Streams.{EndsExactly};
ghost use Rattle.fm_io.specs.Memory.{new_feed, feed_fails, read_size, feed_after, sure_read_size, sure_after, AnswersUnless};

use crate::piece::{copy_piece, is_listed};
use crate::source::{Failed, Source};
use std::marker::Model;

/// Gives bytes in pieces, and fails at listed calls. Contracts see it as a `Feed`: what is left, the
/// most bytes of a call, the calls so far, those that fail, and the faults so far.
#[derive(Drop)]
pub struct MemSource {
    bytes: Vec<u8>,
    at: usize,
    piece: usize,
    calls: u64,
    fail_at: Vec<u64>,
    faults: u64,
}

impl Model for MemSource {
    ghost use Rattle.std.specs.Prelude.{◌≤◌, ◌<◌, length, drop};
    ghost use Rattle.fm_io.specs.Memory.{Feed};

    ghost Value = { Feed };

    ghost view = { λ s. record {
      left = drop s.at s.bytes.items;
      piece = s.piece;
      calls = s.calls;
      fail_at = s.fail_at.items;
      faults = s.faults;
    } };

    ghost invariant = { λ s. (0 < s.piece) × (s.at ≤ length s.bytes.items) };
}

impl MemSource {
    /// Gives these bytes, at most `piece` of them a call, where `piece` is at least 1. The calls
    /// numbered in `fail_at`, count_after from 1, fail. Takes no memory.
    pub fn new(bytes: Vec<u8>, piece: usize, fail_at: Vec<u64>) -> MemSource
        requires { 0 < piece }
        ensures { result ≡ new_feed bytes.items piece fail_at.items }
    {
        MemSource {
            bytes,
            at: 0,
            piece,
            calls: 0,
            fail_at,
            faults: 0,
        }
    }
}

impl Source for MemSource {
    ghost left = { λ s. Some s.left };

    ghost faults = { λ s. s.faults };

    fn read(&mut self, buf: &mut [u8]) -> Result<usize, Failed>
        ensures bound { ReadsAtMost result buf.new }
        ensures bytes { ReadConsumes (Some self.old.left) (Some self.new.left) result buf.new }
        ensures end { EndsExactly (Some self.old.left) result (length buf.old) }
        ensures cause { HasCause self.old.faults self.new.faults result }
        ensures answer { AnswersUnless (feed_fails self.old) (read_size self.old (length buf.old)) result }
        ensures after { self.new ≡ feed_after self.old (length buf.old) }
    {
        let fails = is_listed(&self.fail_at, self.calls);
        self.calls = self.calls.saturating_add(1);
        if fails {
            self.faults = self.faults.saturating_add(1);
            return Err(Failed);
        }
        let count = copy_piece(&self.bytes[self.at..], buf, self.piece);
        self.at += count;
        Ok(count)
    }
}

/// Gives bytes in pieces and never fails. Contracts see it as a `SureFeed`: what is left and the most
/// bytes of a call.
#[derive(Drop)]
pub struct SureSource {
    bytes: Vec<u8>,
    at: usize,
    piece: usize,
}

impl Model for SureSource {
    ghost use Rattle.std.specs.Prelude.{◌≤◌, ◌<◌, length, drop};
    ghost use Rattle.fm_io.specs.Memory.{SureFeed};

    ghost Value = { SureFeed };

    ghost view = { λ s. record { left = drop s.at s.bytes.items; piece = s.piece } };

    ghost invariant = { λ s. (0 < s.piece) × (s.at ≤ length s.bytes.items) };
}

impl SureSource {
    /// Gives these bytes, at most `piece` of them a call, where `piece` is at least 1. Takes no memory.
    pub fn new(bytes: Vec<u8>, piece: usize) -> SureSource
        requires { 0 < piece }
        ensures { result ≡ record { left = bytes.items; piece = piece } }
    {
        SureSource {
            bytes,
            at: 0,
            piece,
        }
    }
}

impl Source for SureSource {
    ghost left = { λ s. Some s.left };

    ghost faults = { λ s. 0 };

    fn read(&mut self, buf: &mut [u8]) -> Result<usize, Failed>
        ensures bound { ReadsAtMost result buf.new }
        ensures bytes { ReadConsumes (Some self.old.left) (Some self.new.left) result buf.new }
        ensures end { EndsExactly (Some self.old.left) result (length buf.old) }
        ensures cause { HasCause 0 0 result }
        ensures answer { result ≡ Ok (sure_read_size self.old (length buf.old)) }
        ensures after { self.new ≡ sure_after self.old (length buf.old) }
    {
        let count = copy_piece(&self.bytes[self.at..], buf, self.piece);
        self.at += count;
        Ok(count)
    }
}
