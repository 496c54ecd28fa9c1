//! What a process does next, told without doing it.

ghost use Rattle.fm_rules.specs.declared.program.Program as declared;
ghost use Rattle.std.specs.Prelude.{◌≡◌, ◌∷◌, Option, List, Result, is_some, length, IfOk};
ghost use Rattle.std.specs.Option.{option_copied};
ghost use Rattle.fm_base.specs.declared.fault.Fault.{Fault};
ghost use Rattle.fm_tree.specs.Tree.{Tree};
ghost use Rattle.fm_tree.specs.declared.statement.Where.{Where};
ghost use Rattle.fm_mean.specs.declared.place.Actual.{Actual};
ghost use Rattle.fm_mean.specs.Actions.{Action, action_at, action_by, end_of, loop_end, next_reference, process_calls, receive_places, receives, reference_step, refers, running, simple_action, statement_action};
ghost use Rattle.fm_mean.specs.Evaluate.{Scope, reference_of};
ghost use Rattle.fm_mean.specs.Names.{unit_at, unit_named};
ghost use Rattle.fm_mean.specs.Process.{Execution, Frame as Standing, Running};
ghost use Rattle.fm_plain_frame.specs.Frames.{execution_of, frame_of, proc_of};
ghost use Rattle.fm_plain_frame.specs.Units.{unit_of};
ghost use Rattle.fm_plain.specs.Events.{IsEvent};
ghost use Rattle.fm_plain.specs.Looking.{IsFreeOrNone, IsNext, IsSeen, StandsOn, waits_in};
ghost use Rattle.fm_plain.specs.Standing.{StandsIn, frame_in, line_in, point_in, program_in, scope_in};
ghost use Rattle.fm_plain.specs.Steps.{IsStep};

use crate::calling::called;
use crate::event::Event;
use crate::here::Here;
use crate::joining::after_at;
use crate::local::next_reference;
use crate::looping::{Loop, loop_of};
use crate::messages::receives;
use crate::step::Step;
use fm_base::{Name, NoMemory};
use fm_plain_frame::{Frame, Phase, PlainProc, unit_named};
use fm_rules::Program;
use fm_tree::{Expr, ExprNode, Extra, Simple, Stmt, Var};
use std::alloc::Global;

/// What a process does next.
#[derive(Drop)]
pub enum Next {
    /// A step that waits for nobody.
    Steps,
    /// Nothing more.
    Rests,
    /// An event that may wait: a receive, or the join of a block. Its operands are evaluated.
    Meets(Event),
}

// A step where something is there, else nothing.
fn where_there(is_there: bool) -> Next
    ensures { (a : Rattle.fm_mean.specs.Actions.Action) → IsFreeOrNone is_there a → IsSeen Running a result }
{
    if is_there { Next::Steps } else { Next::Rests }
}

// Whether a unit of the program has this name.
fn is_unit(here: &Here<'_>, name: &Name) -> bool
    ensures { result ≡ is_some (unit_named (program_in here.now) name.now) }
{
    unit_named(here.unit.program(), name).is_some()
}

// Whether the entry is the end of a loop that is there.
fn ends_a_loop(here: &Here<'_>) -> bool
    ensures { (w : Execution) (f : Standing) (below : List Standing)
        → IsFreeOrNone result (end_of w (unit_of here.now.unit) (point_in here.now) f below here.now.entry.now.mate) }
{
    let Some(opener) = here.entry.mate else {
        return false;
    };
    match here.unit.tree().body.as_slice().get(opener as usize) {
        None => false,
        Some(entry) => match loop_of(&entry.stmt) {
            Loop::Counted(_) => true,
            Loop::While => true,
            Loop::NoLoop => false,
        },
    }
}

// The end of a loop.
fn loop_ends(here: &Here<'_>) -> Next
    ensures { (w : Execution) (f : Standing) (below : List Standing)
        → IsSeen Running (loop_end w (unit_of here.now.unit) (point_in here.now) f below) result }
{
    where_there(ends_a_loop(here))
}

// The start of a process.
fn process_call(here: &Here<'_>, name: &Name) -> Next
    ensures { (w : Execution) (s : Scope) (f : Standing) (below : List Standing) (arguments : List Tree)
        (place : Option Where)
        → IsSeen Running
        (process_calls w s (point_in here.now) f below (unit_named (program_in here.now) name.now) arguments place)
        result }
{
    where_there(is_unit(here, name))
}

// Whether a name is that of a FUNCTION.
fn is_function(here: &Here<'_>, top: &Frame, name: &Name) -> bool
    requires { StandsIn here.now top.now }
    ensures { (w : Execution) (below : List Standing) (arguments : Result (List Actual) Fault)
        → IsFreeOrNone result (refers w (line_in here.now) (frame_in here.now top.now) below
        (reference_of (scope_in here.now top.now) name.now) arguments) }
{
    called(here, top, name).is_some()
}

// Whether a reference is one of a FUNCTION.
fn is_call(here: &Here<'_>, top: &Frame, tree: &Expr) -> bool
    requires { StandsIn here.now top.now }
    ensures { (w : Execution) (below : List Standing)
        → IsFreeOrNone result
        (reference_step w (line_in here.now) (scope_in here.now top.now) (frame_in here.now top.now) below tree.now) }
{
    match &tree.node {
        ExprNode::Ref(name, _) => is_function(here, top, name),
        ExprNode::Number(_) => false,
        ExprNode::Truth(_) => false,
        ExprNode::Named(_) => false,
        ExprNode::Paren(_) => false,
        ExprNode::Signed(_, _) => false,
        ExprNode::Not(_) => false,
        ExprNode::Binary(_, _, _) => false,
    }
}

// Whether an event may wait.
fn waits(event: &Event) -> bool
    ensures { result ≡ waits_in event.now }
{
    match event {
        Event::Fail(_, _) => false,
        Event::Make { .. } => false,
        Event::Send { .. } => false,
        Event::Receive { .. } => true,
        Event::Probe { .. } => false,
        Event::Begin => false,
        Event::Join { .. } => true,
        Event::End => false,
    }
}

// An event, which is told where it may wait.
#[tactic(auto, using(crate::proofs::Free::waits_or_free))]
fn meets(event: Event) -> Next
    ensures { (a : Action) → IsEvent Running a event → IsSeen Running a result }
{
    if waits(&event) {
        Next::Meets(event)
    } else {
        Next::Steps
    }
}

// What a step is, seen from outside.
fn seen(step: Step) -> Next
    ensures { (p : declared.Program) (w : Execution) (a : Action) (f : Standing) (below after : List Standing)
        → IsStep p w a (f ∷ below) step after → IsSeen Running a result }
{
    match step {
        Step::Made(_) => Next::Steps,
        Step::Rest => Next::Rests,
        Step::Event(event) => meets(event),
        Step::LetsGo(_, _) => Next::Steps,
        Step::Prints(_, _, _) => Next::Steps,
    }
}

// A receive: the event, or a fault.
fn receive(
    alloc: Global,
    here: &Here<'_>,
    top: &Frame,
    port: &Var,
    extras: &[Extra],
    items: &[Var],
) -> Result<Next, NoMemory>
    requires { StandsIn here.now top.now }
    ensures { IfOk result (λ r. (w : Execution) (below : List Standing)
        → IsSeen Running (receives (point_in here.now) (frame_in here.now top.now)
        (receive_places (scope_in here.now top.now) port.now extras.now items.now)) r) }
{
    let step = receives(alloc, here, top, port, extras, items)?;
    Ok(seen(step))
}

fn simple(alloc: Global, here: &Here<'_>, top: &Frame, simple: &Simple) -> Result<Next, NoMemory>
    requires { StandsIn here.now top.now }
    ensures { IfOk result (λ r. (w : Execution) (below : List Standing)
        → IsSeen Running (simple_action (program_in here.now) w (unit_of here.now.unit) (point_in here.now)
        (frame_in here.now top.now) below (scope_in here.now top.now) simple.now) r) }
{
    match simple {
        Simple::Goto(_) => Ok(where_there(here.links.jump.is_some())),
        Simple::Call(name, _) => Ok(where_there(is_unit(here, name))),
        Simple::Receive {
            named: _,
            port,
            extras,
            items,
        } => receive(alloc, here, top, port, extras.as_slice(), items.as_slice()),
        Simple::Assignment(_, _) => Ok(Next::Steps),
        Simple::Continue => Ok(Next::Steps),
        Simple::Return => Ok(Next::Steps),
        Simple::Stop => Ok(Next::Steps),
        Simple::Print(_) => Ok(Next::Steps),
        Simple::Write(_, _) => Ok(Next::Steps),
        Simple::Channel { .. } => Ok(Next::Steps),
        Simple::Merger(_, _) => Ok(Next::Steps),
        Simple::Send { .. } => Ok(Next::Steps),
        Simple::EndChannel { .. } => Ok(Next::Steps),
        Simple::MovePort { .. } => Ok(Next::Steps),
        Simple::Probe { .. } => Ok(Next::Steps),
    }
}

// What the statement of an entry comes to, whose references are done.
fn statement(alloc: Global, here: &Here<'_>, top: &Frame, stmt: &Stmt) -> Result<Next, NoMemory>
    requires { StandsIn here.now top.now }
    ensures { IfOk result (λ r. (w : Execution) (below : List Standing)
        → IsSeen Running (statement_action (program_in here.now) w (unit_of here.now.unit) (point_in here.now)
        (frame_in here.now top.now) below (scope_in here.now top.now) stmt.now) r) }
{
    match stmt {
        Stmt::Simple(kind) => simple(alloc, here, top, kind),
        Stmt::LogicalIf(_, _) => Ok(Next::Steps),
        Stmt::BlockIf(_) => Ok(Next::Steps),
        Stmt::ElseIf(_) => Ok(Next::Steps),
        Stmt::Else => Ok(Next::Steps),
        Stmt::EndIf => Ok(Next::Steps),
        Stmt::Do(_) => Ok(Next::Steps),
        Stmt::ProcessDo(_) => Ok(Next::Steps),
        Stmt::DoWhile(_) => Ok(Next::Steps),
        Stmt::EndDo => Ok(loop_ends(here)),
        Stmt::EndProcessDo => Ok(loop_ends(here)),
        Stmt::LoopEnd => Ok(loop_ends(here)),
        Stmt::End => Ok(Next::Steps),
        Stmt::Processes => Ok(Next::Steps),
        Stmt::EndProcesses => Ok(Next::Steps),
        Stmt::ProcessCall(name, _) => Ok(process_call(here, name)),
        Stmt::Program(_) => Ok(Next::Rests),
        Stmt::Process(_, _) => Ok(Next::Rests),
        Stmt::Subroutine(_, _) => Ok(Next::Rests),
        Stmt::Function(_, _) => Ok(Next::Rests),
        Stmt::IntegerFunction(_, _) => Ok(Next::Rests),
        Stmt::LogicalFunction(_, _) => Ok(Next::Rests),
        Stmt::ImplicitNone => Ok(Next::Rests),
        Stmt::Integer(_) => Ok(Next::Rests),
        Stmt::Logical(_) => Ok(Next::Rests),
        Stmt::Dimension(_) => Ok(Next::Rests),
        Stmt::Parameter(_) => Ok(Next::Rests),
        Stmt::Inport(_, _) => Ok(Next::Rests),
        Stmt::Outport(_, _) => Ok(Next::Rests),
        Stmt::Intent(_, _) => Ok(Next::Rests),
        Stmt::Processors(_) => Ok(Next::Rests),
    }
}

// The reference that the entry of a frame comes to.
fn pending<'a>(here: &'a Here<'_>, top: &Frame) -> Option<&'a Expr>
    ensures { option_copied result ≡ next_reference here.now.entry.now (length (frame_in here.now top.now).results) }
{
    next_reference(here.entry, top.results.len())
}

// What the entry at which a frame stands comes to.
fn entry(alloc: Global, here: &Here<'_>, top: &Frame) -> Result<Next, NoMemory>
    requires { StandsIn here.now top.now }
    ensures { IfOk result (λ r. (w : Execution) (below : List Standing)
        → IsSeen Running (action_by (program_in here.now) w (unit_of here.now.unit) (point_in here.now)
        (frame_in here.now top.now) below
        (next_reference here.now.entry.now (length (frame_in here.now top.now).results))) r) }
{
    match pending(here, top) {
        None => statement(alloc, here, top, &here.entry.stmt),
        Some(tree) => Ok(where_there(is_call(here, top, tree))),
    }
}

// What a frame comes to that is innermost.
fn standing(
    alloc: Global,
    program: &Program,
    process: &PlainProc,
    top: &Frame,
) -> Result<Next, NoMemory>
    ensures { IfOk result (λ r. (w : Execution) (below : List Standing)
        → IsSeen Running
        (action_at program.now w (frame_of program.now top.now) below (unit_at program.now top.now.unit)) r) }
{
    match Here::of(program, top, process.machine, process.node) {
        None => Ok(Next::Rests),
        Some(here) => entry(alloc, &here, top),
    }
}

/// The innermost frame, which may be the last of the others.
pub fn innermost(process: &PlainProc) -> Option<&Frame>
    ensures { (p : declared.Program) → StandsOn p (execution_of p process.now).frames (option_copied result) }
{
    match &process.top {
        None => process.below.last(),
        Some(top) => Some(top),
    }
}

// What a process that runs does next.
fn running(alloc: Global, program: &Program, process: &PlainProc) -> Result<Next, NoMemory>
    ensures { IfOk result (λ r. IsSeen Running
        (running program.now (execution_of program.now process.now) (execution_of program.now process.now).frames) r) }
{
    match innermost(process) {
        None => Ok(Next::Rests),
        Some(top) => standing(alloc, program, process, top),
    }
}

/// What a process does next.
pub fn next_of(alloc: Global, program: &Program, process: &PlainProc) -> Result<Next, NoMemory>
    ensures { IfOk result (λ r. IsNext program.now (proc_of program.now process.now) r) }
{
    match &process.phase {
        Phase::Running => running(alloc, program, process),
        Phase::Joining(block, kids) => Ok(match process.top.as_ref().or(process.below.last()) {
            None => Next::Rests,
            Some(top) => Next::Meets(Event::Join {
                block: *block,
                count: kids.len(),
                next: after_at(program, top),
            }),
        }),
        Phase::Ended => Ok(Next::Rests),
        Phase::Faulted(_, _) => Ok(Next::Rests),
    }
}
