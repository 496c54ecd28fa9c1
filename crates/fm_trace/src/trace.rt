//! A kept schedule with its turns and its program.

use fm_base::{Seq, Turn};

/// A form of a trace's text.
#[derive(Clone, Copy)]
pub enum Form {
    /// A line for each time that an entry comes.
    One,
    /// A line for all entries that are the same in succession.
    Two,
}

/// An entry of a kept schedule, so many times in a row.
#[derive(Clone, Copy)]
pub struct Run {
    /// The entry: whose steps, and how many.
    pub turn: Turn,
    /// How many times it comes, 1 to 1,000,000,001. Form 1 has no other than 1.
    pub times: u32,
}

/// A kept schedule, with the turns that bounded it and the program that it is of. The ranges are what `read` gives.
#[derive(Drop)]
pub struct Trace {
    /// The bound on the cost of the run, 1 to 1,000,000,000.
    pub turns: u64,
    /// Its entries in order, with their times 1,000,000,001 at most.
    pub entries: Seq<Run>,
    /// The bytes of the program: all that stands behind the line `source`.
    pub source: Seq<u8>,
}
