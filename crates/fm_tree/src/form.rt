//! The forms of entries: what the rules of structure ask of a statement.

ghost use Rattle.std.specs.Prelude.{◌≡◌};
ghost use Rattle.fm_tree.specs.Structure.{bracket_of, contained_form, end_label, extra_label, form_of, loop_label, or_later, simple_form_of, terminal_of};

use crate::statement::{Extra, LoopHead, Simple, Stmt};
use fm_base::Label;

/// The kind of unit that a heading begins.
#[derive(Clone, Copy)]
pub enum UnitKind {
    Program,
    Process,
    Subroutine,
    Function,
}

/// What the statement that closes a labelled loop is to the loop.
#[derive(Clone, Copy)]
pub enum Terminal {
    /// CONTINUE, which ends any loop.
    Continue,
    /// Another statement that may end a DO.
    Fit,
    /// A statement that may end no loop.
    Unfit,
}

/// The form of an entry. The labels of loops and of jumps stand in it.
#[derive(Clone, Copy)]
pub enum Form {
    Heading(UnitKind),
    Processors,
    /// Any other declaration.
    Declaration,
    BlockIf,
    /// Whether it parts the innermost open block.
    ElseIf(bool),
    /// Whether it parts the innermost open block.
    Else(bool),
    EndIf,
    Do(Option<Label>),
    DoWhile,
    EndDo,
    Processes,
    EndProcesses,
    /// The PROCESSES of a PROCESSDO outside process blocks.
    Wrap,
    /// The ENDPROCESSES of a PROCESSDO outside process blocks.
    EndWrap,
    ProcessDo(Option<Label>),
    EndProcessDo,
    ProcessCall,
    /// The test of a logical IF.
    Test,
    Goto(Label),
    /// A RECEIVE, and the label behind `END=`.
    Receive(Option<Label>),
    Continue,
    Return,
    Stop,
    End,
    /// Any other executable statement.
    Plain,
    /// The end of a labelled loop, and what the statement that closes it is to the loop.
    LoopEnd(Terminal),
}

/// What an entry does to the open blocks.
#[derive(Clone, Copy)]
pub enum Bracket {
    Opens,
    Closes,
    /// Begins the next branch of the innermost one.
    Parts,
    Stays,
}

fn extra_label(extra: &Extra) -> Option<Label>
    ensures { result ≡ extra_label extra.now }
{
    match extra {
        Extra::End(label) => Some(*label),
        Extra::Iostat(_) => None,
    }
}

fn or_later(here: Option<Label>, later: Option<Label>) -> Option<Label>
    ensures { result ≡ or_later here later }
{
    match here {
        Some(label) => Some(label),
        None => later,
    }
}

fn end_label(extras: &[Extra]) -> Option<Label>
    ensures { result ≡ end_label extras.now }
{
    let mut found = None;
    'extras: for k in (0..extras.len()).rev() {
        found = or_later(extra_label(&extras[k]), found);
    }
    found
}

#[tactic(auto, unfolding(crate::specs::Structure::simple_form_of))]
fn simple_form_of(simple: &Simple) -> Form
    ensures { result ≡ simple_form_of simple.now }
{
    match simple {
        Simple::Goto(label) => Form::Goto(*label),
        Simple::Continue => Form::Continue,
        Simple::Return => Form::Return,
        Simple::Stop => Form::Stop,
        Simple::Receive { extras, .. } => Form::Receive(end_label(extras.as_slice())),
        _ => Form::Plain,
    }
}

fn loop_label(head: &LoopHead) -> Option<Label>
    ensures { result ≡ loop_label head.now }
{
    match head.label {
        Some(label) => Some(label.label),
        None => None,
    }
}

/// The form of a statement; of a logical IF that of its test.
#[tactic(auto, unfolding(crate::specs::Structure::form_of))]
pub fn form_of(stmt: &Stmt) -> Form
    ensures { result ≡ form_of stmt.now }
{
    match stmt {
        Stmt::Program(_) => Form::Heading(UnitKind::Program),
        Stmt::Process(_, _) => Form::Heading(UnitKind::Process),
        Stmt::Subroutine(_, _) => Form::Heading(UnitKind::Subroutine),
        Stmt::Function(_, _) => Form::Heading(UnitKind::Function),
        Stmt::IntegerFunction(_, _) => Form::Heading(UnitKind::Function),
        Stmt::LogicalFunction(_, _) => Form::Heading(UnitKind::Function),
        Stmt::ImplicitNone => Form::Declaration,
        Stmt::Integer(_) => Form::Declaration,
        Stmt::Logical(_) => Form::Declaration,
        Stmt::Dimension(_) => Form::Declaration,
        Stmt::Parameter(_) => Form::Declaration,
        Stmt::Inport(_, _) => Form::Declaration,
        Stmt::Outport(_, _) => Form::Declaration,
        Stmt::Intent(_, _) => Form::Declaration,
        Stmt::Processors(_) => Form::Processors,
        Stmt::Simple(simple) => simple_form_of(simple),
        Stmt::LogicalIf(_, _) => Form::Test,
        Stmt::BlockIf(_) => Form::BlockIf,
        Stmt::ElseIf(_) => Form::ElseIf(false),
        Stmt::Else => Form::Else(false),
        Stmt::EndIf => Form::EndIf,
        Stmt::Do(head) => Form::Do(loop_label(head)),
        Stmt::DoWhile(_) => Form::DoWhile,
        Stmt::EndDo => Form::EndDo,
        Stmt::End => Form::End,
        Stmt::Processes => Form::Processes,
        Stmt::EndProcesses => Form::EndProcesses,
        Stmt::ProcessCall(_, _) => Form::ProcessCall,
        Stmt::ProcessDo(head) => Form::ProcessDo(loop_label(head)),
        Stmt::EndProcessDo => Form::EndProcessDo,
        Stmt::LoopEnd => Form::LoopEnd(Terminal::Fit),
    }
}

/// The form of the statement in a logical IF. `None` for any other statement.
#[tactic(auto, unfolding(crate::specs::Structure::contained_form))]
pub fn contained_form(stmt: &Stmt) -> Option<Form>
    ensures { result ≡ contained_form stmt.now }
{
    match stmt {
        Stmt::LogicalIf(_, simple) => Some(simple_form_of(simple)),
        _ => None,
    }
}

/// What an entry of a form does to the open blocks.
#[tactic(auto, unfolding(crate::specs::Structure::bracket_of))]
pub fn bracket_of(form: Form) -> Bracket
    ensures { result ≡ bracket_of form }
{
    match form {
        Form::BlockIf => Bracket::Opens,
        Form::Do(_) => Bracket::Opens,
        Form::DoWhile => Bracket::Opens,
        Form::Processes => Bracket::Opens,
        Form::Wrap => Bracket::Opens,
        Form::ProcessDo(_) => Bracket::Opens,
        Form::ElseIf(true) => Bracket::Parts,
        Form::Else(true) => Bracket::Parts,
        Form::EndIf => Bracket::Closes,
        Form::EndDo => Bracket::Closes,
        Form::EndProcesses => Bracket::Closes,
        Form::EndWrap => Bracket::Closes,
        Form::EndProcessDo => Bracket::Closes,
        Form::LoopEnd(_) => Bracket::Closes,
        _ => Bracket::Stays,
    }
}

/// What a statement of a form is to a loop that it closes.
#[tactic(auto, unfolding(crate::specs::Structure::terminal_of))]
pub fn terminal_of(form: Form) -> Terminal
    ensures { result ≡ terminal_of form }
{
    match form {
        Form::Continue => Terminal::Continue,
        Form::Goto(_) => Terminal::Unfit,
        Form::Return => Terminal::Unfit,
        Form::Stop => Terminal::Unfit,
        Form::End => Terminal::Unfit,
        Form::BlockIf => Terminal::Unfit,
        Form::ElseIf(_) => Terminal::Unfit,
        Form::Else(_) => Terminal::Unfit,
        Form::EndIf => Terminal::Unfit,
        Form::Do(_) => Terminal::Unfit,
        Form::DoWhile => Terminal::Unfit,
        Form::EndDo => Terminal::Unfit,
        Form::Processes => Terminal::Unfit,
        Form::EndProcesses => Terminal::Unfit,
        Form::ProcessCall => Terminal::Unfit,
        Form::ProcessDo(_) => Terminal::Unfit,
        Form::EndProcessDo => Terminal::Unfit,
        _ => Terminal::Fit,
    }
}
