//! How statements end.

use fm_base::Fault;
use fm_code::{Ask, Trips};

/// What a statement changes in its frame.
#[derive(Clone, Copy)]
pub struct Change {
    /// The address of the next statement.
    pub to: u32,
    /// A word, by its number.
    pub word: Option<(usize, i64)>,
    /// The trips of a loop, by its number.
    pub trips: Option<(usize, Trips)>,
}

/// How a statement ends that built nothing.
#[derive(Drop)]
pub enum Ending {
    /// It changes its frame.
    Goes(Change),
    /// It returns from a subroutine.
    Returns,
    /// It returns from a function with this result.
    ReturnsValue(i64),
    /// It lets the port of a word go, and goes on at the address.
    Closes(u32, u32),
    /// It moves a port from one word to another, and goes on at the address.
    Moves(u32, u32, u32),
    /// It faults.
    Fails(Fault),
    /// It asks for something.
    Asks(Ask),
    /// An instruction doesn't find what it needs.
    Stuck,
}

/// How a statement ends. What it built stands beside it.
#[derive(Drop)]
pub enum StatementEnd {
    /// It prints the line, and goes on at the address.
    Prints(u32),
    /// It calls a unit with the operands, and goes on at the address.
    Calls(u32, u32),
    /// It refers to a function with the operands, and goes on at the address.
    Refers(u32, u32),
    /// It adds a start of this unit with the operands, and goes on at the address.
    Starts(u32, u32),
    /// It ends so, and built nothing.
    Over(Ending),
}
