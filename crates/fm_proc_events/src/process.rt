//! Processes in memory.

use fm_base::{Fault, Line, Seq};
use fm_code::{Back, Body, Rare};
use fm_proc_slots::Slots;

/// A child that is to be joined.
pub struct Kid {
    /// The number of the unit that it began with.
    pub unit: u32,
    /// What it gives back.
    pub backs: Rare<Back>,
}

impl Drop for Kid {
    fn drop(self) {
        let Kid {
            unit: _unit,
            backs: _backs,
        } = self;
    }
}

/// The phase of a process.
#[derive(Drop)]
pub enum Phase {
    /// It makes steps of its own.
    Running,
    /// It waits for these children, in the order of their starts, of the block with this number.
    Joining { block: u32, kids: Seq<Kid> },
    /// It has ended.
    Ended,
    /// It met a fault at a line.
    Faulted { line: Line, fault: Fault },
}

/// A process. Contracts see it as a process of the language of stack code (`proc_of`).
pub struct Process {
    /// Its phase.
    pub phase: Phase,
    /// Its code, and its frames; none of a child that was joined.
    pub body: Option<Body>,
    /// The ports of its words.
    pub slots: Slots,
    /// Its output.
    pub lines: Rare<Seq<u8>>,
    /// The number of the block that begins next.
    pub next_block: u32,
    /// The number of the channel that it makes next.
    pub next_channel: u32,
}

impl Drop for Process {
    fn drop(self) {
        let Process {
            phase: _phase,
            body: _body,
            slots: _slots,
            lines: _lines,
            next_block: _next_block,
            next_channel: _next_channel,
        } = self;
    }
}
