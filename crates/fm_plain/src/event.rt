//! Events of a process.

use fm_base::{ChanName, Fault, Line, Seq};
use fm_mean::{Actual, Span};

/// What a process meets others by, or what changes its phase, with evaluated operands: places are those of its
/// innermost frame, and `next` is the entry that it does then. Contracts see it as the meaning's (`event_by`).
#[derive(Drop)]
pub enum Event {
    /// A fault at a line.
    Fail(Line, Fault),
    /// A new channel.
    Make {
        /// The places of its inport and of its outports.
        places: Seq<Span>,
        /// The number of its writers.
        writers: u32,
        /// What it costs.
        cost: u64,
        /// Where the process goes on.
        next: u32,
    },
    /// A message goes into a channel.
    Send {
        /// The channel.
        channel: ChanName,
        /// The writer by which it is sent.
        writer: u32,
        /// The items.
        items: Seq<Actual>,
        /// Where the process goes on.
        next: u32,
    },
    /// A message comes from a channel.
    Receive {
        /// The channel.
        channel: ChanName,
        /// The line of the statement.
        line: Line,
        /// The places of the items.
        items: Seq<Span>,
        /// The place of IOSTAT.
        iostat: Option<Span>,
        /// Where END leads.
        at_end: Option<u32>,
        /// Where the process goes on.
        next: u32,
    },
    /// Whether a receive would wait.
    Probe {
        /// The channel.
        channel: ChanName,
        /// The place that is set.
        empty: Span,
        /// Where the process goes on.
        next: u32,
    },
    /// The starts of the innermost frame begin as a block.
    Begin,
    /// The children of a block are joined, who stand in the phase.
    Join {
        /// The number of the block.
        block: u32,
        /// How many children there are.
        count: usize,
        /// Where the process goes on.
        next: u32,
    },
    /// The process ends.
    End,
}
