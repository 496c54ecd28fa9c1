//! What the program answers.

ghost use Rattle.std.specs.Prelude.{◌≡◌};
ghost use Rattle.fmc.specs.Exits.{status_of};

use fm_base::{Path, Turn};
use std::sync::Arc;

/// How a call ended. The numbers are the exit statuses, 0 to 15.
#[derive(Clone, Copy, Debug, PartialEq, Eq)]
pub enum Exit {
    /// The run ended, nobody faulted, and main ended.
    Done,
    /// The run ended, and a process faulted.
    Faulted,
    /// The run ended, nobody faulted, and main waits.
    Deadlocked,
    /// The program breaks a rule.
    Refused,
    /// The kept schedule costs more than the turns.
    Spent,
    /// The words aren't in the command set.
    Usage,
    /// The source failed.
    ReadFault,
    /// The sink failed.
    WriteFault,
    /// Memory was asked for and not found.
    NoMemory,
    /// The source is over its limit.
    TooLong,
    /// A line of a trace is outside its form.
    Malformed,
    /// An entry of a trace asks for a step that isn't there.
    Illegal,
    /// A trace ends before the run does.
    Unfinished,
    /// A line of an object text is outside its form.
    BadObject,
    /// The image of an object text makes no sense.
    Unverified,
    /// The program isn't one that hosts can play.
    NotPlain,
}

impl Exit {
    /// The exit status, 0 to 15.
    pub fn status(self) -> u8
        ensures { result ≡ status_of self }
    {
        self as u8
    }
}

/// The exit, and the schedule that was kept: so many steps of the process of a number in `paths`,
/// one turn after the other. Both lists are empty where nothing was played.
#[derive(Drop)]
pub struct Ran {
    /// How the call ended.
    pub exit: Exit,
    /// The kept schedule.
    pub history: Vec<Turn>,
    /// The processes in the order of their starting.
    pub paths: Vec<Arc<Path>>,
}

/// A text to write.
#[derive(Drop)]
pub enum Text {
    /// A text that is known before, for which no memory is needed.
    Fixed(&'static [u8]),
    /// A text that was made.
    Made(Vec<u8>),
}

/// What is answered, and the text for it.
#[derive(Drop)]
pub struct Reply {
    /// The answer.
    pub ran: Ran,
    /// The whole text of its exit.
    pub text: Text,
}
