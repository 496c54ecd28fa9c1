//! Classes of statements, operators and tokens.

ghost use Rattle.std.specs.Prelude.{◌≡◌, IfOk};
ghost use Rattle.fm_base.specs.Tokens.{keyword_text, op_text};

use crate::memory::NoMemory;
use crate::name::Name;
use crate::seq::Seq;
use std::alloc::Global;

/// The class of a statement's text: which form it may have.
#[derive(Clone, Copy, PartialEq, Eq)]
pub enum Class {
    BlockIf,
    LogicalIf,
    Assignment,
    ProcessDo,
    Do,
    End,
    EndIf,
    EndDo,
    EndProcesses,
    EndProcessDo,
    Else,
    Continue,
    Return,
    Stop,
    Processes,
    ImplicitNone,
    ElseIf,
    DoWhile,
    Goto,
    EndChannel,
    Channel,
    Merger,
    Send,
    Receive,
    MovePort,
    Probe,
    ProcessCall,
    Processors,
    Process,
    Program,
    Subroutine,
    IntegerFunction,
    LogicalFunction,
    Function,
    Call,
    Print,
    Write,
    Integer,
    Logical,
    Dimension,
    Parameter,
    Inport,
    Outport,
    Intent,
    /// No form has this text.
    Nothing,
}

impl Class {
    /// The word that a statement of the class begins with, without parenthesis or star. Empty for
    /// an assignment and for `Nothing`.
    pub fn keyword(self) -> &'static [u8]
        ensures { result.now ≡ keyword_text self }
    {
        match self {
            Class::BlockIf => b"IF",
            Class::LogicalIf => b"IF",
            Class::Assignment => b"",
            Class::ProcessDo => b"PROCESSDO",
            Class::Do => b"DO",
            Class::End => b"END",
            Class::EndIf => b"ENDIF",
            Class::EndDo => b"ENDDO",
            Class::EndProcesses => b"ENDPROCESSES",
            Class::EndProcessDo => b"ENDPROCESSDO",
            Class::Else => b"ELSE",
            Class::Continue => b"CONTINUE",
            Class::Return => b"RETURN",
            Class::Stop => b"STOP",
            Class::Processes => b"PROCESSES",
            Class::ImplicitNone => b"IMPLICITNONE",
            Class::ElseIf => b"ELSEIF",
            Class::DoWhile => b"DOWHILE",
            Class::Goto => b"GOTO",
            Class::EndChannel => b"ENDCHANNEL",
            Class::Channel => b"CHANNEL",
            Class::Merger => b"MERGER",
            Class::Send => b"SEND",
            Class::Receive => b"RECEIVE",
            Class::MovePort => b"MOVEPORT",
            Class::Probe => b"PROBE",
            Class::ProcessCall => b"PROCESSCALL",
            Class::Processors => b"PROCESSORS",
            Class::Process => b"PROCESS",
            Class::Program => b"PROGRAM",
            Class::Subroutine => b"SUBROUTINE",
            Class::IntegerFunction => b"INTEGERFUNCTION",
            Class::LogicalFunction => b"LOGICALFUNCTION",
            Class::Function => b"FUNCTION",
            Class::Call => b"CALL",
            Class::Print => b"PRINT",
            Class::Write => b"WRITE",
            Class::Integer => b"INTEGER",
            Class::Logical => b"LOGICAL",
            Class::Dimension => b"DIMENSION",
            Class::Parameter => b"PARAMETER",
            Class::Inport => b"INPORT",
            Class::Outport => b"OUTPORT",
            Class::Intent => b"INTENT",
            Class::Nothing => b"",
        }
    }
}

/// An operator of expressions.
#[derive(Clone, Copy, PartialEq, Eq)]
pub enum Op {
    Eqv,
    Neqv,
    Or,
    And,
    Not,
    Eq,
    Ne,
    Lt,
    Le,
    Gt,
    Ge,
    Add,
    Sub,
    Mul,
    Div,
    Pow,
}

impl Op {
    /// How the operator is written.
    pub fn text(self) -> &'static [u8]
        ensures { result.now ≡ op_text self }
    {
        match self {
            Op::Eqv => b".EQV.",
            Op::Neqv => b".NEQV.",
            Op::Or => b".OR.",
            Op::And => b".AND.",
            Op::Not => b".NOT.",
            Op::Eq => b".EQ.",
            Op::Ne => b".NE.",
            Op::Lt => b".LT.",
            Op::Le => b".LE.",
            Op::Gt => b".GT.",
            Op::Ge => b".GE.",
            Op::Add => b"+",
            Op::Sub => b"-",
            Op::Mul => b"*",
            Op::Div => b"/",
            Op::Pow => b"**",
        }
    }
}

/// A token of a statement.
#[derive(PartialEq, Eq, Drop)]
pub enum Token {
    /// The keyword of a class.
    Key(Class),
    /// A name, whole, however long it is.
    Named(Name),
    /// A number up to 2^63 - 1.
    Number(i64),
    /// A number over 2^63 - 1.
    Big,
    /// A character constant: the bytes that it stands for.
    Constant(Seq<u8>),
    Open,
    Close,
    Comma,
    Equals,
    Colon,
    True,
    False,
    /// Each other sign, as an operator. A star is `Mul`.
    Sign(Op),
}

impl Token {
    /// The same token once more.
    pub fn copy(&self, alloc: Global) -> Result<Token, NoMemory>
        ensures { IfOk result (λ t. t ≡ self.now) }
    {
        Ok(match self {
            Token::Key(class) => Token::Key(*class),
            Token::Named(name) => Token::Named(name.copy(alloc)?),
            Token::Number(n) => Token::Number(*n),
            Token::Big => Token::Big,
            Token::Constant(bytes) => Token::Constant(Seq::from_slice(alloc, bytes.as_slice())?),
            Token::Open => Token::Open,
            Token::Close => Token::Close,
            Token::Comma => Token::Comma,
            Token::Equals => Token::Equals,
            Token::Colon => Token::Colon,
            Token::True => Token::True,
            Token::False => Token::False,
            Token::Sign(op) => Token::Sign(*op),
        })
    }
}
