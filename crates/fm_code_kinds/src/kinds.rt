//! Kinds of operands.

use fm_code::{Loop, Span};

/// What is known of an operand of a call, of a message or of a start.
#[derive(Clone, Copy)]
pub enum Passed {
    /// It is a value.
    Value,
    /// It is these words of the frame.
    Words(Span),
    /// It is these port words of the frame.
    Ports(Span),
    /// It is one of these words.
    WordIn(Span),
    /// It is one of these port words.
    PortIn(Span),
    /// It was cut to the number that the operand at this place is.
    Sized(u32),
}

/// What is known of something that a statement holds.
#[derive(Clone, Copy)]
pub enum Kind {
    /// A result of a reference that is done.
    Returned,
    /// A word on the stack; the number of one of these words of the frame, or a place in an array of so many, where
    /// they are told.
    Word(Option<Span>),
    /// An operand that was built.
    Operand(Passed),
    /// The loop of the statement.
    LoopOf(Loop),
}
