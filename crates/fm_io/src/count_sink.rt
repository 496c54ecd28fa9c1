//! A sink that keeps nothing but a count.

ghost use Rattle.std.specs.Prelude.{◌≡◌, true, None, length};
ghost use Rattle.fm_io.specs.Memory.{new_tally, tally_after, flushed_tally};

use crate::sink::Sink;
use crate::source::Failed;
use std::marker::Model;

/// Keeps only how many bytes were written, and never fails. Contracts see it as a `Tally`: this count,
/// and whether all was flushed.
#[derive(Drop)]
pub struct CountSink {
    written: u64,
    flushed: bool,
}

impl Model for CountSink {
    ghost use Rattle.fm_io.specs.Memory.{Tally};

    ghost Value = { Tally };

    ghost view = { λ s. record { written = s.written; flushed = s.flushed } };
}

impl CountSink {
    /// Nothing is written yet. Takes no memory.
    pub fn new() -> CountSink
        ensures { result ≡ new_tally }
    {
        CountSink {
            written: 0,
            flushed: true,
        }
    }

    /// The number of bytes written so far, which stays at 2^64 - 1 once it is there.
    pub fn written(&self) -> u64
        ensures { result ≡ self.now.written }
    {
        self.written
    }
}

impl Sink for CountSink {
    ghost written = { λ s. None };

    ghost faults = { λ s. 0 };

    ghost flushed = { λ s. s.flushed ≡ true };

    fn write(&mut self, buf: &[u8]) -> Result<usize, Failed>
        ensures answer { result ≡ Ok (length buf.now) }
        ensures after { self.new ≡ tally_after self.old (length buf.now) }
    {
        self.written = self.written.saturating_add(buf.len() as u64);
        self.flushed = false;
        Ok(buf.len())
    }

    fn flush(&mut self) -> Result<(), Failed>
        ensures answer { result ≡ Ok tt }
        ensures after { self.new ≡ flushed_tally self.old }
    {
        self.flushed = true;
        Ok(())
    }
}
