//! What a run shows when it has ended.

use fm_base::{ChanName, Fault, Line, Name, Path, Seq};

/// A line of output, and the process that printed it.
pub struct OutputLine {
    /// The process.
    pub path: Path,
    /// The bytes, without a line feed.
    pub bytes: Seq<u8>,
}

impl Drop for OutputLine {
    fn drop(self) {
        let OutputLine {
            path: _path,
            bytes: _bytes,
        } = self;
    }
}

/// What a variable of main holds in the end, element after element in column order. A scalar has one.
#[derive(Drop)]
pub enum Shown {
    /// Integers.
    Numbers(Seq<i64>),
    /// Logicals.
    Truths(Seq<bool>),
    /// Ports, each by its channel; none where it is NULL.
    Ports(Seq<Option<ChanName>>),
}

/// A variable of main, and what it holds.
pub struct ShownVariable {
    /// The name.
    pub name: Name,
    /// What it holds.
    pub shown: Shown,
}

impl Drop for ShownVariable {
    fn drop(self) {
        let ShownVariable {
            name: _name,
            shown: _shown,
        } = self;
    }
}

/// A process that has faulted.
pub struct FaultAt {
    /// The process.
    pub path: Path,
    /// The line of the statement.
    pub line: Line,
    /// The fault.
    pub fault: Fault,
}

impl Drop for FaultAt {
    fn drop(self) {
        let FaultAt {
            path: _path,
            line: _line,
            fault: _fault,
        } = self;
    }
}

/// What a process waits for.
#[derive(Drop)]
pub enum At {
    /// A message of the channel.
    Receive(ChanName),
    /// The end of this child, the first one of its block that hasn't ended.
    Join(Path),
}

/// A process that waits.
pub struct Wait {
    /// The process.
    pub path: Path,
    /// The line of the statement.
    pub line: Line,
    /// What it waits for.
    pub at: At,
}

impl Drop for Wait {
    fn drop(self) {
        let Wait {
            path: _path,
            line: _line,
            at: _at,
        } = self;
    }
}

/// An open writer of a channel, and the process that holds it.
///
/// A process holds the outports in its variables and in its starts that wait. What an ended process
/// keeps to give back is held by the process that started it. An outport in a message is held by nobody.
pub struct Holder {
    /// The channel.
    pub channel: ChanName,
    /// The number of the writer.
    pub writer: u32,
    /// The process.
    pub path: Path,
}

impl Drop for Holder {
    fn drop(self) {
        let Holder {
            channel: _channel,
            writer: _writer,
            path: _path,
        } = self;
    }
}

/// What a run shows when it has ended. Lines, faults and waits stand in path order.
#[derive(Drop)]
pub struct Outcome {
    /// The output, process after process.
    pub lines: Seq<OutputLine>,
    /// The variables of main, in byte order of their names.
    pub variables: Seq<ShownVariable>,
    /// The processes that have faulted.
    pub faults: Seq<FaultAt>,
    /// The processes that wait.
    pub waits: Seq<Wait>,
    /// Who holds the open writers, in order of the maker's path, of the channel's number, and of the writer.
    pub holders: Seq<Holder>,
    /// Whether main has ended.
    pub main_ended: bool,
    /// The cost of the run, in turns.
    pub used: u64,
}
