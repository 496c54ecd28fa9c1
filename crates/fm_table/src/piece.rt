//! A piece that is made outside.

ghost use Rattle.std.specs.Prelude.{◌≡◌, ◌≤◌, IfOk};

use fm_base::{NoMemory, Path};
use fm_code::Body;
use fm_machine::{Done, advance};
use std::alloc::Global;
use std::sync::Arc;

/// A process that is out, with all that its piece needs.
#[derive(Drop)]
pub struct Piece {
    /// Its number.
    pub process: u32,
    /// Its path.
    pub path: Arc<Path>,
    /// Its body as it was taken.
    pub start: Arc<Body>,
    /// The most statements of its piece, 1 to 1,000,000.
    pub slice: u32,
    ghost some: { 1 ≤ slice },
    ghost small: { slice ≤ 1000000 },
}

impl Piece {
    /// Makes the statements of the piece that touch nothing but the process.
    ///
    /// # Errors
    /// `NoMemory` is want of memory.
    pub fn advance(self, alloc: Global) -> Result<Done, NoMemory>
        ensures process { IfOk result (λ d. d.process ≡ self.process) }
        ensures start { IfOk result (λ d. d.start ≡ self.start) }
    {
        let Piece {
            process,
            path: _path,
            start,
            slice,
        } = self;
        advance(alloc, process, start, slice)
    }
}

// What a heavy process gets at once, in slices, where it is played beside others.
const HEAVY_SLICES: u32 = 128;

// How many statements a process gets at least for each word of its frame. With 8 its copies and comparisons took some 5
// in 100 of its time, without what fresh pages cost.
const STEPS_FOR_A_WORD: u32 = 64;

/// The most statements of the piece of a process whose frame has so many words: as many as the setup says; or more
/// where it is heavy, or its body is large, so that handing it out, copying it and comparing it takes little of its
/// time.
pub(crate) fn slice_for(slice: u32, words: usize, heavy: bool) -> u32
    requires some { 1 ≤ slice }
    requires small { slice ≤ 1000000 }
    ensures some { 1 ≤ result }
    ensures small { result ≤ 1000000 }
{
    let long = if heavy { slice * HEAVY_SLICES } else { slice };
    if words < 15_625 && long < 1_000_000 {
        long.max(words as u32 * STEPS_FOR_A_WORD)
    } else {
        1_000_000
    }
}
