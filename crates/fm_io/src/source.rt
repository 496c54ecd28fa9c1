//! Where bytes come from.

ghost use Rattle.std.specs.Prelude.{List, ℕ, length};
ghost use Rattle.std.specs.declared.option.Option.{Option};
ghost use Rattle.std.specs.Io.{ReadsAtMost};
ghost use Rattle.std.specs.Io.KnownBytes.{ReadConsumes};
ghost use Rattle.fm_io.specs.Causes.{HasCause};
ghost use Rattle.fm_io.specs.Streams.{EndsExactly};

/// A call that failed. The count of faults tells that it did.
#[derive(Clone, Copy, Debug, PartialEq, Eq)]
pub struct Failed;

/// Gives bytes piece by piece, and counts its faults.
pub trait Source {
    /// The bytes that are left, where the source tells them.
    ghost left: { Self → Option (List ℕ) };

    /// How often it has failed. Never falls.
    ghost faults: { Self → ℕ };

    /// Moves bytes to the front of the buffer and says how many. 0 for a buffer that isn't empty is
    /// the end. Fails only where the count of faults rose, and then takes nothing.
    fn read(&mut self, buf: &mut [u8]) -> Result<usize, Failed>
        ensures bound { ReadsAtMost result buf.new }
        ensures bytes { ReadConsumes (left self.old) (left self.new) result buf.new }
        ensures end { EndsExactly (left self.old) result (length buf.old) }
        ensures cause { HasCause (faults self.old) (faults self.new) result };
}
