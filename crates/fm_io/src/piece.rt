//! What the sources and sinks over memory share.

ghost use Rattle.std.specs.Prelude.{◌≡◌, min, length, take};
ghost use Rattle.fm_io.specs.Memory.{fails_next};

/// Copies the front of `from` to the front of `buf`, as much as fits, and at most so many bytes.
pub(crate) fn copy_piece(from: &[u8], buf: &mut [u8], most: usize) -> usize
    ensures count { result ≡ min (min (length from.now) (length buf.old)) most }
    ensures bytes { take result buf.new ≡ take result from.now }
{
    let count = from.len().min(buf.len()).min(most);
    buf[..count].copy_from_slice(&from[..count]);
    count
}

/// Whether the next call, after so many, is listed. No number past the last `u64` is.
pub(crate) fn is_listed(fail_at: &[u64], calls: u64) -> bool
    ensures { result ≡ fails_next calls fail_at.now }
{
    match calls.checked_add(1) {
        Some(number) => fail_at.contains(&number),
        None => false,
    }
}
