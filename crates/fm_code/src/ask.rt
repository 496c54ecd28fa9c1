//! What bodies ask for.

use crate::code::Span;
use fm_base::{Fault, Line, Seq};

/// An argument, or an item of a message: a word, or words of the frame at their place.
#[derive(Clone, Copy)]
pub enum Operand {
    /// A word.
    Value(i64),
    /// Words of the frame.
    Words(Span),
    /// Port words of the frame.
    Ports(Span),
}

/// What the next statement of a body asks for. Words of the frame are named by their numbers, ports by the
/// words that are kept for them; `next` is the address of the statement that comes then.
#[derive(Drop)]
pub enum Ask {
    /// A fault at a line.
    Fail {
        line: Line,
        fault: Fault,
    },
    /// The statement, with nothing else, after which these ports are let go, in this order.
    LetGo {
        slots: Seq<i64>,
    },
    /// A new channel, for the words of its inport and its outport.
    Channel {
        inport: u32,
        outport: u32,
        next: u32,
    },
    /// A new channel, for the words of its inport and of its outports.
    Merger {
        inport: u32,
        outports: Seq<Operand>,
        next: u32,
    },
    /// A message of these items by a port.
    Send {
        slot: i64,
        items: Seq<Operand>,
        next: u32,
    },
    /// A message by a port for these items; the word of IOSTAT, and the statement at the end of the channel.
    Receive {
        slot: i64,
        items: Seq<Operand>,
        status: Option<u32>,
        at_end: Option<u32>,
        next: u32,
    },
    /// Whether a receive by a port would wait, for this word.
    Probe {
        slot: i64,
        empty: u32,
        next: u32,
    },
    /// The starts of the frame begin as a block.
    Begin {
        next: u32,
    },
    /// The children of the block are joined.
    Join {
        next: u32,
    },
    /// The process ends.
    End,
}
