//! What a process does next, told without doing it.

ghost use Rattle.std.specs.Prelude.{◌≡◌, IfOk};
ghost use Rattle.fm_proc_language.specs.Processes.{Running};
ghost use Rattle.fm_proc_events.specs.Phases.{proc_of};
ghost use Rattle.fm_proc_events.specs.Told.{look_by, look_of};

use fm_base::NoMemory;
use fm_code::Body;
use fm_machine::next_look as next_look_of;
use fm_machine_calls::Look;
use fm_machine_instr::Work;
use fm_proc_events::{Phase, Process};
use std::alloc::Global;

/// What a body does next; one that isn't there does nothing.
fn look_at(alloc: Global, work: &mut Work, body: &Option<Body>) -> Result<Look, NoMemory>
    ensures { IfOk result (λ l. l ≡ look_by Running body.now) }
{
    match body {
        Some(body) => next_look_of(alloc, work, body),
        None => Ok(Look::Stuck),
    }
}

/// What the next statement of a process does, without doing it.
#[tactic(auto, using(fm_proc_events::proofs::Doing::joining_looks))]
pub fn next_look(alloc: Global, work: &mut Work, process: &Process) -> Result<Look, NoMemory>
    ensures { IfOk result (λ l. l ≡ look_of (proc_of process.now)) }
{
    match &process.phase {
        Phase::Running => look_at(alloc, work, &process.body),
        Phase::Joining { block: _, kids: _ } => look_at(alloc, work, &process.body),
        Phase::Ended => Ok(Look::Stuck),
        Phase::Faulted { line: _, fault: _ } => Ok(Look::Stuck),
    }
}
