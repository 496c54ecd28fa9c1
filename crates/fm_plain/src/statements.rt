//! What each statement does.

ghost use Rattle.std.specs.Prelude.{◌≡◌, IfOk, OnErr};
ghost use Rattle.fm_mean.specs.Actions.{simple_action, statement_action};
ghost use Rattle.fm_mean.specs.Process.{Execution};
ghost use Rattle.fm_plain_frame.specs.Units.{unit_of};
ghost use Rattle.fm_plain.specs.Standing.{SitsAt, StandsIn, below_in, frame_in, point_in, program_in, scope_in, standing};
ghost use Rattle.fm_plain.specs.Steps.{IsStep};

use crate::assigning::{assigns, prints};
use crate::calling::calls;
use crate::control::{goes_to, jumps, tests};
use crate::event::Event;
use crate::here::Here;
use crate::looping::{loop_end, loops};
use crate::messages::{makes, merges, probes, receives, sends};
use crate::ports::{closes, moves};
use crate::returning::returns;
use crate::starting::{process_calls, where_in};
use crate::step::Step;
use fm_base::NoMemory;
use fm_plain_frame::{Frame, arguments_in, arguments_of};
use fm_tree::{Simple, Stmt};
use std::alloc::Global;

fn simple(
    alloc: Global,
    here: &Here<'_>,
    top: &mut Frame,
    below: &mut Vec<Frame>,
    simple: &Simple,
) -> Result<Step, NoMemory>
    requires { StandsIn here.now top.old }
    ensures acts { IfOk result (λ r. (w : Execution) → SitsAt here.now w
        → IsStep (program_in here.now) w (simple_action (program_in here.now) w (unit_of here.now.unit)
        (point_in here.now) (frame_in here.now top.old) (below_in here.now below.old.items) (scope_in here.now top.old)
        simple.now) (standing (program_in here.now) top.old below.old.items) r
        (standing (program_in here.now) top.new below.new.items)) }
    ensures err { OnErr result (standing (program_in here.now) top.new below.new.items
        ≡ standing (program_in here.now) top.old below.old.items) }
{
    match simple {
        Simple::Assignment(target, value) => assigns(alloc, here, top, target, value),
        Simple::Goto(_) => Ok(jumps(here, top, here.links.jump)),
        Simple::Continue => Ok(goes_to(here, top, here.entry.after)),
        Simple::Return => returns(alloc, here, top, below, here.unit.kind()),
        Simple::Stop => Ok(Step::Event(Event::End)),
        Simple::Call(name, arguments) => {
            calls(alloc, here, top, below, name, arguments_of(arguments))
        }
        Simple::Print(items) => prints(alloc, here, top, items.as_slice()),
        Simple::Write(_, items) => prints(alloc, here, top, items.as_slice()),
        Simple::Channel {
            in_first,
            inport,
            outport,
        } => makes(alloc, here, top, *in_first, inport, outport),
        Simple::Merger(inport, outports) => merges(alloc, here, top, inport, outports.as_slice()),
        Simple::Send {
            named: _,
            port,
            items,
        } => sends(alloc, here, top, port, items.as_slice()),
        Simple::Receive {
            named: _,
            port,
            extras,
            items,
        } => receives(alloc, here, top, port, extras.as_slice(), items.as_slice()),
        Simple::EndChannel { named: _, port } => closes(alloc, here, top, port),
        Simple::MovePort { from, to } => moves(alloc, here, top, from, to),
        Simple::Probe {
            named: _,
            port,
            empty,
        } => probes(alloc, here, top, port, empty),
    }
}

/// What the statement of an entry does, whose references are done.
pub(crate) fn statement(
    alloc: Global,
    here: &Here<'_>,
    top: &mut Frame,
    below: &mut Vec<Frame>,
    stmt: &Stmt,
) -> Result<Step, NoMemory>
    requires { StandsIn here.now top.old }
    ensures acts { IfOk result (λ r. (w : Execution) → SitsAt here.now w
        → IsStep (program_in here.now) w (statement_action (program_in here.now) w (unit_of here.now.unit)
        (point_in here.now) (frame_in here.now top.old) (below_in here.now below.old.items) (scope_in here.now top.old)
        stmt.now) (standing (program_in here.now) top.old below.old.items) r
        (standing (program_in here.now) top.new below.new.items)) }
    ensures err { OnErr result (standing (program_in here.now) top.new below.new.items
        ≡ standing (program_in here.now) top.old below.old.items) }
{
    match stmt {
        Stmt::Simple(kind) => simple(alloc, here, top, below, kind),
        Stmt::LogicalIf(condition, _) => tests(alloc, here, top, condition),
        Stmt::BlockIf(condition) => tests(alloc, here, top, condition),
        Stmt::ElseIf(condition) => tests(alloc, here, top, condition),
        Stmt::Else => Ok(goes_to(here, top, here.entry.after)),
        Stmt::EndIf => Ok(goes_to(here, top, here.entry.after)),
        Stmt::Do(head) => loops(alloc, here, top, head),
        Stmt::ProcessDo(head) => loops(alloc, here, top, head),
        Stmt::DoWhile(condition) => tests(alloc, here, top, condition),
        Stmt::EndDo => loop_end(here, top),
        Stmt::EndProcessDo => loop_end(here, top),
        Stmt::LoopEnd => loop_end(here, top),
        Stmt::End => returns(alloc, here, top, below, here.unit.kind()),
        Stmt::Processes => Ok(goes_to(here, top, here.entry.after)),
        Stmt::EndProcesses => Ok(Step::Event(Event::Begin)),
        Stmt::ProcessCall(name, part) => {
            process_calls(alloc, here, top, name, arguments_in(part), where_in(part))
        }
        Stmt::Program(_) => Ok(Step::Rest),
        Stmt::Process(_, _) => Ok(Step::Rest),
        Stmt::Subroutine(_, _) => Ok(Step::Rest),
        Stmt::Function(_, _) => Ok(Step::Rest),
        Stmt::IntegerFunction(_, _) => Ok(Step::Rest),
        Stmt::LogicalFunction(_, _) => Ok(Step::Rest),
        Stmt::ImplicitNone => Ok(Step::Rest),
        Stmt::Integer(_) => Ok(Step::Rest),
        Stmt::Logical(_) => Ok(Step::Rest),
        Stmt::Dimension(_) => Ok(Step::Rest),
        Stmt::Parameter(_) => Ok(Step::Rest),
        Stmt::Inport(_, _) => Ok(Step::Rest),
        Stmt::Outport(_, _) => Ok(Step::Rest),
        Stmt::Intent(_, _) => Ok(Step::Rest),
        Stmt::Processors(_) => Ok(Step::Rest),
    }
}
