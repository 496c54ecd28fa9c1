//! Instructions.

use crate::code::Span;
use fm_base::Op;
use fm_values::Intrinsic;

/// Evaluates: a word on the stack gives way to another, and the statement goes on.
#[derive(Clone, Copy)]
pub enum Eval {
    /// Pushes a word.
    Push(i64),
    /// Pushes the word of the frame with this number.
    Load(u32),
    /// Pushes a result of those references of the statement that are done, by its number.
    Result(u32),
    /// A subscript gives way to its distance from the lower bound; Subscript where it isn't below the extent.
    Subscript(i64, u32),
    /// A subscript, and the place in the dimensions behind its own, give way to the place with its own.
    Dimension(i64, u32),
    /// The place of an element gives way to its word, in an array whose words begin here.
    Element(u32),
    /// The place of an element gives way to the number of its word, in an array whose words begin here.
    Locate(u32),
    /// Two words give way to what the operator makes of them.
    Apply(Op),
    /// A word gives way to the one with the other sign.
    Negate,
    /// A truth gives way to the other one.
    Not,
    /// So many words give way to the value of the intrinsic function.
    Intrinsic(Intrinsic, u32),
}

/// A loop of a unit.
#[derive(Clone, Copy)]
pub struct Loop {
    /// Its number among those of the unit: that of its trips among those of the frame.
    pub number: u32,
    /// The word of its variable.
    pub word: u32,
}

/// Adds to what the statement builds: a line, operands, its loop, or a place for a process. The statement goes on.
#[derive(Clone, Copy)]
pub enum Build {
    /// A byte goes last into the text.
    Letter(u8),
    /// The text goes last into the line, and the next one is empty.
    ShowText,
    /// The word on top goes last into the line.
    Show,
    /// The truth on top goes last into the line.
    ShowTruth,
    /// Words of the frame go last into the line, one by one.
    ShowWords(Span),
    /// Truths of the frame go last into the line, one by one.
    ShowTruths(Span),
    /// The word on top is the next operand.
    PassValue,
    /// Words of the frame are the next operand.
    PassWords(Span),
    /// Port words of the frame are the next operand.
    PassPorts(Span),
    /// The word of the frame whose number is on top is the next operand.
    PassWordAt,
    /// The port word of the frame whose number is on top is the next operand.
    PassPortAt,
    /// The word of the frame whose number is on top is that of IOSTAT.
    Status,
    /// The loop that the statement begins, or a trip of which it ends.
    Loop(Loop),
    /// So many words are the LOCATION of the process.
    Location(u32),
    /// Two words are the SUBMACHINE of the process.
    Submachine,
    /// The operand at the first place is cut to the number that the earlier one at the second place is; NullPort where
    /// the port is NULL whose word's number is on top, and stays there.
    Cut(u32, u32),
}

/// Ends a statement that concerns the process alone. Unless it says otherwise, the last operand is the
/// address of the next statement.
#[derive(Clone, Copy)]
pub enum End {
    /// Goes on.
    Goto(u32),
    /// Goes to the first address where the truth on top holds, else to the second.
    Test(u32, u32),
    /// Stores the word on top at this word of the frame.
    Store(u32, u32),
    /// Stores the word on top at the word of the frame whose number is below it.
    StoreAt(u32),
    /// Begins the loop, of its first and last value and its step: goes to its body, or behind it.
    Enter(u32, u32),
    /// Ends a trip of the loop: goes to its body, or behind it.
    Again(u32, u32),
    /// Prints the line.
    Print(u32),
    /// Calls a unit with the operands.
    Call(u32, u32),
    /// Refers to a function with the operands; results that are there stay.
    Refer(u32, u32),
    /// Returns from a subroutine to the caller.
    Return,
    /// Returns from a function, whose result is this word of the frame.
    ReturnValue(u32),
    /// Adds the start of a process of this unit, with the operands, to those of the block.
    Start(u32, u32),
}

/// Ends a statement on ports or on other processes. Unless it says otherwise, the last operand is the
/// address of the next statement.
#[derive(Clone, Copy)]
pub enum Meet {
    /// The process ends.
    Stop,
    /// Sends the operands by the port whose word's number is on top.
    Send(u32),
    /// Receives the operands by the port whose word's number is on top.
    Receive(u32),
    /// The same; at the end of the channel the statement at the first address is next.
    ReceiveOr(u32, u32),
    /// A channel for the inport and the outport whose words' numbers are on the stack, the inport's first.
    Channel(u32),
    /// The same, the outport's first.
    ChannelFrom(u32),
    /// A channel for the inport whose word's number is on top, and for a writer at each word of the operands.
    Merger(u32),
    /// Lets the port go whose word's number is on top.
    EndChannel(u32),
    /// Moves a port from one word to another, whose numbers are on the stack.
    MovePort(u32),
    /// Whether a receive would wait, by the port and for the word whose numbers are on the stack.
    Probe(u32),
    /// The starts of the block begin. The next statement is its join.
    Begin(u32),
    /// The children of the block are joined.
    Join(u32),
}

/// An instruction. A statement is some that evaluate and build, and then one that ends it: nothing jumps
/// inside a statement, and what ends it tells where the next one begins.
#[derive(Clone, Copy)]
pub enum Instr {
    /// Evaluates.
    Eval(Eval),
    /// Adds to what the statement builds.
    Build(Build),
    /// Ends the statement.
    End(End),
    /// Ends the statement.
    Meet(Meet),
}
