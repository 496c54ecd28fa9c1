//! What a process does next, told with its operands and without doing it.

ghost use Rattle.std.specs.Prelude.{◌≡◌, true, false, IfOk};
ghost use Rattle.fm_plain_frame.specs.Frames.{is_running, phase_of, proc_of};
ghost use Rattle.fm_nodes_trees.specs.Told.{IsTold};

use fm_base::NoMemory;
use fm_plain::{Acted, Event, Next, act, next_of};
use fm_plain_frame::PlainProc;
use fm_rules::Program;
use std::alloc::Global;

/// What a process does next.
#[derive(Drop)]
pub(crate) enum Ahead {
    /// Nothing more.
    Rests,
    /// A step of its own.
    Goes,
    /// An event, with its operands.
    Meets(Event),
}

// Of a process that runs: what a twin of it does.
fn told_by_twin(alloc: Global, program: &Program, process: &PlainProc) -> Result<Ahead, NoMemory>
    requires { is_running (phase_of process.now.phase) ≡ true }
    ensures { IfOk result (λ t. IsTold program.now (proc_of program.now process.now) t) }
{
    let mut twin = process.twin(alloc, program)?;
    match act(alloc, program, &mut twin)? {
        Acted::Done(_) => Ok(Ahead::Goes),
        Acted::LetsGo(_, _) => Ok(Ahead::Goes),
        Acted::Rest => Ok(Ahead::Rests),
        Acted::Event(event) => Ok(Ahead::Meets(event)),
    }
}

// Of a process that doesn't run: it may join.
fn told_waiting(alloc: Global, program: &Program, process: &PlainProc) -> Result<Ahead, NoMemory>
    requires { is_running (phase_of process.now.phase) ≡ false }
    ensures { IfOk result (λ t. IsTold program.now (proc_of program.now process.now) t) }
{
    match next_of(alloc, program, process)? {
        Next::Steps => unreachable!(),
        Next::Rests => Ok(Ahead::Rests),
        Next::Meets(event) => Ok(Ahead::Meets(event)),
    }
}

/// What a process does next.
pub(crate) fn told(alloc: Global, program: &Program, process: &PlainProc) -> Result<Ahead, NoMemory>
    ensures { IfOk result (λ t. IsTold program.now (proc_of program.now process.now) t) }
{
    if process.is_running() {
        told_by_twin(alloc, program, process)
    } else {
        told_waiting(alloc, program, process)
    }
}
