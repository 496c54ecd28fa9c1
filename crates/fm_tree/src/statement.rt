//! Statements: one variant for each form, its parts in the order of the form.

use crate::expression::Expr;
use crate::port_type::{Bound, PortType};
use fm_base::{Label, Name, Seq};

/// A name with the bounds of its dimensions, none where none are written.
pub struct Decl {
    pub name: Name,
    pub bounds: Seq<Bound>,
}

impl Drop for Decl {
    fn drop(self) {
        let Decl {
            name: _name,
            bounds: _bounds,
        } = self;
    }
}

/// A variable or an element: no subscripts where no parentheses are written.
pub struct Var {
    pub name: Name,
    pub subscripts: Seq<Expr>,
}

impl Drop for Var {
    fn drop(self) {
        let Var {
            name: _name,
            subscripts: _subscripts,
        } = self;
    }
}

/// `name = value` of a PARAMETER statement.
pub struct Defined {
    pub name: Name,
    pub value: Expr,
}

impl Drop for Defined {
    fn drop(self) {
        let Defined {
            name: _name,
            value: _value,
        } = self;
    }
}

/// What INTENT says of a formal argument.
#[derive(Clone, Copy)]
pub enum Way {
    In,
    Out,
    InOut,
}

/// The label behind DO, and whether a comma stands behind it.
#[derive(Clone, Copy)]
pub struct LoopLabel {
    pub label: Label,
    pub comma: bool,
}

/// `[label [,]] variable = from , to [, step]`.
pub struct LoopHead {
    pub label: Option<LoopLabel>,
    pub variable: Name,
    pub from: Expr,
    pub to: Expr,
    pub step: Option<Expr>,
}

impl Drop for LoopHead {
    fn drop(self) {
        let LoopHead {
            label: _label,
            variable: _variable,
            from: _from,
            to: _to,
            step: _step,
        } = self;
    }
}

/// What PRINT and WRITE print: an expression or a character constant.
#[derive(Drop)]
pub enum Item {
    Expr(Expr),
    Constant(Seq<u8>),
}

/// How the unit of a WRITE is written.
#[derive(Clone, Copy)]
pub enum WriteUnit {
    Star,
    Six,
}

/// What may stand behind the port of a RECEIVE.
#[derive(Drop)]
pub enum Extra {
    /// `END = label`.
    End(Label),
    /// `IOSTAT = variable`.
    Iostat(Var),
}

/// Where a process is put.
#[derive(Drop)]
pub enum Where {
    /// `LOCATION ( subscripts )`.
    Location(Seq<Expr>),
    /// `SUBMACHINE ( first : last )`.
    Submachine(Expr, Expr),
}

/// The parentheses of a PROCESSCALL, and where the process is put.
pub struct CallPart {
    pub arguments: Seq<Expr>,
    pub place: Option<Where>,
}

impl Drop for CallPart {
    fn drop(self) {
        let CallPart {
            arguments: _arguments,
            place: _place,
        } = self;
    }
}

/// A statement that may stand behind a logical IF.
#[derive(Drop)]
pub enum Simple {
    Assignment(Var, Expr),
    Goto(Label),
    Continue,
    Return,
    Stop,
    /// A subroutine and its arguments. `None` where no parentheses are written.
    Call(Name, Option<Seq<Expr>>),
    /// No items where no comma is written.
    Print(Seq<Item>),
    Write(WriteUnit, Seq<Item>),
    /// Whether IN is written first, and the two ports.
    Channel {
        in_first: bool,
        inport: Var,
        outport: Var,
    },
    /// The inport and the outports.
    Merger(Var, Seq<Var>),
    /// Whether `PORT =` is written, the port and the items.
    Send {
        named: bool,
        port: Var,
        items: Seq<Expr>,
    },
    /// Whether `PORT =` is written, the port, what stands behind it, and the variables.
    Receive {
        named: bool,
        port: Var,
        extras: Seq<Extra>,
        items: Seq<Var>,
    },
    /// Whether `PORT =` is written, and the port.
    EndChannel {
        named: bool,
        port: Var,
    },
    MovePort {
        from: Var,
        to: Var,
    },
    /// Whether `PORT =` is written, the port, and the variable that is set.
    Probe {
        named: bool,
        port: Var,
        empty: Var,
    },
}

/// A statement.
#[derive(Drop)]
pub enum Stmt {
    Program(Name),
    /// `None` where no parentheses are written.
    Process(Name, Option<Seq<Name>>),
    /// `None` where no parentheses are written.
    Subroutine(Name, Option<Seq<Name>>),
    Function(Name, Seq<Name>),
    IntegerFunction(Name, Seq<Name>),
    LogicalFunction(Name, Seq<Name>),
    ImplicitNone,
    Integer(Seq<Decl>),
    Logical(Seq<Decl>),
    Dimension(Seq<Decl>),
    Parameter(Seq<Defined>),
    Inport(PortType, Seq<Decl>),
    Outport(PortType, Seq<Decl>),
    Intent(Way, Seq<Name>),
    Processors(Seq<Expr>),
    Simple(Simple),
    LogicalIf(Expr, Simple),
    BlockIf(Expr),
    ElseIf(Expr),
    Else,
    EndIf,
    Do(LoopHead),
    DoWhile(Expr),
    EndDo,
    End,
    Processes,
    EndProcesses,
    /// `None` where no parentheses are written.
    ProcessCall(Name, Option<CallPart>),
    ProcessDo(LoopHead),
    EndProcessDo,
    /// The end of a labelled loop, put behind the statement that bears the label. No text spells it.
    LoopEnd,
}
