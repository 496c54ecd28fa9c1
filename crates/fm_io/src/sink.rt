//! Where bytes go.

ghost use Rattle.std.specs.Prelude.{◌≡◌, ◌<◌, List, ℕ, length, OnOk};
ghost use Rattle.std.specs.declared.option.Option.{Option};
ghost use Rattle.std.specs.Io.{WritesAtMost};
ghost use Rattle.std.specs.Io.KnownBytes.{WriteAppends, Keeps};
ghost use Rattle.fm_io.specs.Causes.{HasCause, Rose};

use crate::source::Failed;

/// Takes bytes piece by piece, and counts its faults.
pub trait Sink {
    /// The bytes written, where the sink tells them.
    ghost written: { Self → Option (List ℕ) };

    /// How often it has failed. Never falls.
    ghost faults: { Self → ℕ };

    /// All that was written was handed on.
    ghost flushed: { Self → Type 0 };

    /// Takes bytes from the front of the piece and says how many. Fails, or takes none of a piece
    /// that isn't empty, only where the count of faults rose; a failed write takes nothing.
    fn write(&mut self, buf: &[u8]) -> Result<usize, Failed>
        ensures bound { WritesAtMost result buf.now }
        ensures bytes { WriteAppends (written self.old) (written self.new) result buf.now }
        ensures cause { HasCause (faults self.old) (faults self.new) result }
        ensures stuck { result ≡ Ok 0 → 0 < length buf.now → Rose (faults self.old) (faults self.new) };

    /// Hands on what was written. Fails only where the count of faults rose. The bytes written stay.
    fn flush(&mut self) -> Result<(), Failed>
        ensures bytes { Keeps (written self.old) (written self.new) }
        ensures done { OnOk result (flushed self.new) }
        ensures cause { HasCause (faults self.old) (faults self.new) result };
}
