//! One step of a process, where it is its own.

ghost use Rattle.fm_rules.specs.declared.program.Program as declared;
ghost use Rattle.std.specs.Prelude.{◌≡◌, ◌∷◌, List, length, IfOk, OnErr};
ghost use Rattle.std.specs.Option.{option_copied};
ghost use Rattle.fm_mean.specs.Actions.{Action, action_by, action_of, next_reference, running};
ghost use Rattle.fm_mean.specs.Process as mean;
ghost use Rattle.fm_mean.specs.Process.{Execution, Proc};
ghost use Rattle.fm_plain_frame.specs.Frames.{execution_of, frame_of, phase_of, proc_of};
ghost use Rattle.fm_plain_frame.specs.Units.{unit_of};
ghost use Rattle.fm_plain.specs.Standing.{SitsAt, StandsIn, below_in, frame_in, point_in, program_in, standing, IsRaised};
ghost use Rattle.fm_plain.specs.Steps.{IsActed, IsStep, runs_with};

use crate::calling::reference_step;
use crate::event::Event;
use crate::here::{Here, go_to};
use crate::joining::after_at;
use crate::statements::statement;
use crate::step::Step;
use fm_base::{NoMemory, Seq};
use fm_plain_frame::{Frame, LetGo, Phase, PlainProc};
use fm_rules::Program;
use fm_tree::{Entry, Expr};
use fm_tree_reference::reference_at;
use std::alloc::Global;

/// What a step was.
#[derive(Drop)]
pub enum Acted {
    /// It touched the process alone, and is made at this cost.
    Done(u32),
    /// There is none.
    Rest,
    /// An event, which is to be done.
    Event(Event),
    /// It is made at this cost, and lets these ports go.
    LetsGo(LetGo, u32),
}

// The reference of an entry that comes when so many are done.
pub(crate) fn next_reference(entry: &Entry, done: usize) -> Option<&Expr>
    ensures { option_copied result ≡ next_reference entry.now done }
{
    let place = entry.refs.as_slice().get(done)?;
    reference_at(&entry.stmt, *place)
}

// The references of an entry come first, each a step of its own.
fn step_at(
    alloc: Global,
    here: &Here<'_>,
    top: &mut Frame,
    below: &mut Vec<Frame>,
) -> Result<Step, NoMemory>
    requires { StandsIn here.now top.old }
    ensures acts { IfOk result (λ r. (w : Execution) → SitsAt here.now w
        → IsStep (program_in here.now) w (action_by (program_in here.now) w (unit_of here.now.unit) (point_in here.now)
        (frame_in here.now top.old) (below_in here.now below.old.items)
        (next_reference here.now.entry.now (length (frame_in here.now top.old).results)))
        (standing (program_in here.now) top.old below.old.items) r
        (standing (program_in here.now) top.new below.new.items)) }
    ensures err { OnErr result (standing (program_in here.now) top.new below.new.items
        ≡ standing (program_in here.now) top.old below.old.items) }
{
    match next_reference(here.entry, top.results.len()) {
        None => statement(alloc, here, top, below, &here.entry.stmt),
        Some(tree) => reference_step(alloc, here, top, below, tree),
    }
}

// A line is put out when there is room for it.
fn finish(step: Step, top: &mut Frame, lines: &mut Vec<Seq<u8>>) -> Result<Acted, NoMemory>
    ensures acts { IfOk result (λ r. (p : declared.Program) (x : Proc) (fs below : List mean.Frame) (a : Action)
        → IsStep p x.execution a fs step (frame_of p top.old ∷ below)
        → IsActed p a (runs_with x fs lines.old.items) r (runs_with x (frame_of p top.new ∷ below) lines.new.items)) }
    ensures err_top { OnErr result ((p : declared.Program) (x : Proc) (fs below : List mean.Frame) (a : Action)
        → IsStep p x.execution a fs step (frame_of p top.old ∷ below)
        → frame_of p top.new ∷ below ≡ fs) }
    ensures err_lines { OnErr result (lines.new.items ≡ lines.old.items) }
{
    match step {
        Step::Made(cost) => Ok(Acted::Done(cost)),
        Step::Rest => Ok(Acted::Rest),
        Step::Event(event) => Ok(Acted::Event(event)),
        Step::LetsGo(ports, cost) => Ok(Acted::LetsGo(ports, cost)),
        Step::Prints(text, cost, next) => {
            lines.push(text)?;
            go_to(top, next);
            Ok(Acted::Done(cost))
        }
    }
}

// The step of a process that runs, with a frame innermost if it has any.
fn run(alloc: Global, program: &Program, process: &mut PlainProc) -> Result<Acted, NoMemory>
    requires runs { phase_of process.old.phase ≡ mean.Running }
    requires raised { IsRaised process.old.top process.old.below.items }
    ensures acts { IfOk result (λ a. IsActed program.now
        (running program.now (execution_of program.now process.old) (execution_of program.now process.old).frames)
        (proc_of program.now process.old) a (proc_of program.now process.new)) }
    ensures err { OnErr result (proc_of program.now process.new ≡ proc_of program.now process.old) }
{
    let Some(top) = &mut process.top else {
        return Ok(Acted::Rest);
    };
    let Some(here) = Here::of(program, top, process.machine, process.node) else {
        return Ok(Acted::Rest);
    };
    let step = step_at(alloc, &here, top, &mut process.below)?;
    finish(step, top, &mut process.lines)
}

// Where no frame is innermost, the last of the others is.
fn raise(process: &mut PlainProc)
    ensures process { (p : declared.Program) → proc_of p process.new ≡ proc_of p process.old }
    ensures phase { process.new.phase ≡ process.old.phase }
    ensures raised { IsRaised process.new.top process.new.below.items }
{
    if process.top.is_none() {
        process.top = process.below.pop();
    }
}

/// Makes the next step of a process where that is its own, and else leaves the process as it was.
pub fn act(alloc: Global, program: &Program, process: &mut PlainProc) -> Result<Acted, NoMemory>
    ensures acts { IfOk result (λ a. IsActed program.now (action_of program.now (proc_of program.now process.old))
        (proc_of program.now process.old) a (proc_of program.now process.new)) }
    ensures err { OnErr result (proc_of program.now process.new ≡ proc_of program.now process.old) }
{
    raise(process);
    match &process.phase {
        Phase::Running => run(alloc, program, process),
        Phase::Joining(block, kids) => Ok(match &process.top {
            None => Acted::Rest,
            Some(top) => Acted::Event(Event::Join {
                block: *block,
                count: kids.len(),
                next: after_at(program, top),
            }),
        }),
        Phase::Ended => Ok(Acted::Rest),
        Phase::Faulted(_, _) => Ok(Acted::Rest),
    }
}
