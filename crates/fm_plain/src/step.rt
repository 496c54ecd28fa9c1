//! What steps are, and what became of them.

ghost use Rattle.std.specs.Prelude.{◌≡◌, ◌++◌, List, []};
ghost use Rattle.fm_mean.specs.Actions.{Action, Own};
ghost use Rattle.fm_mean.specs.Places.{live};
ghost use Rattle.fm_mean.specs.Process as mean;
ghost use Rattle.fm_mean.specs.Process.{Execution, frame_ports, framed};
ghost use Rattle.fm_plain_frame.specs.Frames.{frame_of};
ghost use Rattle.fm_rules.specs.declared.program.Program as declared;
ghost use Rattle.fm_plain_frame.specs.LetGo.{let_go_ports};
ghost use Rattle.fm_plain.specs.declared.event.Event.TheVariants as event;
ghost use Rattle.fm_plain.specs.declared.step.Step.TheVariants as step;
ghost use Rattle.fm_plain.specs.Standing.{program_in};
ghost use Rattle.fm_plain.specs.Steps.{IsFailed, IsStep};

use crate::event::Event;
use crate::here::Here;
use fm_base::{Fault, Line, NoMemory, PortValue, Seq};
use fm_plain_eval::Failure;
use fm_plain_frame::{Frame, LetGo};
use std::alloc::Global;

/// What the next step of a process is.
#[derive(Drop)]
pub(crate) enum Step {
    /// It touches the frames alone, and is made at this cost.
    Made(u32),
    /// There is none.
    Rest,
    /// An event, which is to be done.
    Event(Event),
    /// It is made at this cost, and lets these ports go.
    LetsGo(LetGo, u32),
    /// It puts out a line at this cost, and goes on at an entry: it isn't made yet.
    Prints(Seq<u8>, u32, u32),
}

/// A fault at a line.
pub(crate) fn fails(line: Line, fault: Fault) -> Step
    ensures { result ≡ step.Event (event.Fail line fault) }
{
    Step::Event(Event::Fail(line, fault))
}

/// The step of a statement that has no operands: its fault, or want of memory.
pub(crate) fn failed(line: Line, failure: Failure) -> Result<Step, NoMemory>
    ensures { IsFailed line failure result }
{
    match failure {
        Failure::Fault(fault) => Ok(Step::Event(Event::Fail(line, fault))),
        Failure::NoMemory => Err(NoMemory),
    }
}

/// Ports that were put out of their places are let go, and those of a frame that is gone.
pub(crate) fn put_out_with(alloc: Global, replaced: Vec<Option<PortValue>>, gone: Frame) -> LetGo
    ensures { (p : declared.Program) → let_go_ports p result ≡ live replaced.items ++ frame_ports (frame_of p gone) }
{
    LetGo {
        replaced,
        top: Some(gone),
        below: Vec::new(alloc),
        taken: Vec::new(alloc),
    }
}

/// A step that is made, and lets ports go if there are any.
pub(crate) fn lets_go(here: &Here<'_>, ports: LetGo, cost: u32) -> Step
    ensures { (w : Execution) (fs gs : List mean.Frame) (a : Action)
        → a ≡ Own (framed w gs) [] (let_go_ports (program_in here.now) ports) cost
        → IsStep (program_in here.now) w a fs result gs }
{
    if ports.is_empty(here.unit.program()) {
        return Step::Made(cost);
    }
    Step::LetsGo(ports, cost)
}
