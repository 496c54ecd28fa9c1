//! Sources and sinks over readers and writers of std. As a source or a sink they tell no content;
//! their own clauses say what the reader or the writer did, where that one tells it.

ghost use Rattle.std.specs.Prelude.{◌≡◌, ◌<◌, None, length, is_err, true, false, if◌then◌else◌};
ghost use Rattle.std.specs.Io.{ReadsAtMost, WritesAtMost};
ghost use Rattle.std.specs.Io.KnownBytes.{ReadConsumes, WriteAppends, Keeps};
ghost use Rattle.fm_io.specs.Causes.{HasCause, Rose, count_after, is_refused};

use crate::sink::Sink;
use crate::source::{Failed, Source};
use std::io::{Read, Write};
use std::marker::Model;

/// A reader, with the count of its errors. Contracts see it as this pair.
#[derive(Drop)]
pub struct StdSource<R> {
    reader: R,
    faults: u64,
}

impl<R> Model for StdSource<R> {
    ghost use Rattle.std.specs.Prelude.{ℕ};

    ghost Value = { R × ℕ };

    ghost view = { λ s. (s.reader, s.faults) };
}

impl<R: Read> StdSource<R> {
    /// A reader that hasn't failed yet. Takes no memory.
    pub fn new(reader: R) -> StdSource<R>
        ensures { result ≡ (reader, 0) }
    {
        StdSource { reader, faults: 0 }
    }
}

impl<R: Read> Source for StdSource<R> {
    ghost left = { λ s. None };

    ghost faults = { λ s. s.1 };

    /// Counts one more at each error.
    fn read(&mut self, buf: &mut [u8]) -> Result<usize, Failed>
        ensures bound { ReadsAtMost result buf.new }
        ensures bytes { ReadConsumes (R.remaining self.old.0) (R.remaining self.new.0) result buf.new }
        ensures cause { HasCause self.old.1 self.new.1 result }
        ensures after { self.new.1 ≡ count_after (is_err result) self.old.1 }
    {
        match self.reader.read(buf) {
            Ok(count) => Ok(count),
            Err(_) => {
                self.faults = self.faults.saturating_add(1);
                Err(Failed)
            }
        }
    }
}

/// A writer, with the count of its errors and of pieces that it refused, and whether it has flushed all.
/// Contracts see it as these three.
#[derive(Drop)]
pub struct StdSink<W> {
    writer: W,
    faults: u64,
    flushed: bool,
}

impl<W> Model for StdSink<W> {
    ghost use Rattle.std.specs.Prelude.{ℕ, Bool};

    ghost Value = { W × ℕ × Bool };

    ghost view = { λ s. (s.writer, s.faults, s.flushed) };
}

impl<W: Write> StdSink<W> {
    /// A writer that hasn't failed yet. Takes no memory.
    pub fn new(writer: W) -> StdSink<W>
        ensures { result ≡ (writer, 0, true) }
    {
        StdSink {
            writer,
            faults: 0,
            flushed: true,
        }
    }
}

impl<W: Write> Sink for StdSink<W> {
    ghost written = { λ s. None };

    ghost faults = { λ s. s.1 };

    ghost flushed = { λ s. s.2 ≡ true };

    /// Counts one more at each error, and at each 0 for a piece that isn't empty.
    fn write(&mut self, buf: &[u8]) -> Result<usize, Failed>
        ensures bound { WritesAtMost result buf.now }
        ensures bytes { WriteAppends (W.contents self.old.0) (W.contents self.new.0) result buf.now }
        ensures cause { HasCause self.old.1 self.new.1 result }
        ensures stuck { result ≡ Ok 0 → 0 < length buf.now → Rose self.old.1 self.new.1 }
        ensures after { self.new.1 ≡ count_after (is_refused result (length buf.now)) self.old.1 }
        ensures unflushed { self.new.2 ≡ false }
    {
        self.flushed = false;
        match self.writer.write(buf) {
            Ok(count) => {
                if count == 0 && !buf.is_empty() {
                    self.faults = self.faults.saturating_add(1);
                }
                Ok(count)
            }
            Err(_) => {
                self.faults = self.faults.saturating_add(1);
                Err(Failed)
            }
        }
    }

    /// Counts one more at each error.
    fn flush(&mut self) -> Result<(), Failed>
        ensures bytes { Keeps (W.contents self.old.0) (W.contents self.new.0) }
        ensures cause { HasCause self.old.1 self.new.1 result }
        ensures after { self.new.1 ≡ count_after (is_err result) self.old.1 }
        ensures done { self.new.2 ≡ (if is_err result then self.old.2 else true) }
    {
        match self.writer.flush() {
            Ok(()) => {
                self.flushed = true;
                Ok(())
            }
            Err(_) => {
                self.faults = self.faults.saturating_add(1);
                Err(Failed)
            }
        }
    }
}
