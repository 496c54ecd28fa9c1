//! Statements of a process that touch nothing but the process.

ghost use Rattle.std.specs.Prelude.{◌≡◌, ◌≢◌, ◌≤◌, ◌++◌, true, false, IfOk, OnOk};
ghost use Rattle.fm_proc_language.specs.Needs.{is_local};
ghost use Rattle.fm_proc_events.specs.Phases.{proc_of};
ghost use Rattle.fm_procs.specs.Runs.{Runs};
ghost use Rattle.fm_proc_events.specs.Told.{is_running, look_of};

use fm_base::NoMemory;
use fm_machine::{Made, proceed};
use fm_machine_calls::Look;
use fm_machine_instr::Work;
use fm_proc_events::Process;
use std::alloc::Global;

/// What some statements came to.
#[derive(Drop)]
pub struct Advanced {
    /// How many there were.
    pub steps: u32,
    /// What they cost.
    pub cost: u64,
    /// What the process does then.
    pub next: Look,
}

/// Does statements of a process, as many as `slice` at most, and stops where the next one touches channels or other
/// processes, or where there is none. After want of memory the process may have gone on.
#[inline(always)]
pub fn advance(
    alloc: Global,
    work: &mut Work,
    process: &mut Process,
    slice: u32,
) -> Result<Advanced, NoMemory>
    requires { is_running (proc_of process.old) ≡ true }
    ensures runs { IfOk result (λ a. Runs (proc_of process.old) a.steps a.cost (proc_of process.new)) }
    ensures within { IfOk result (λ a. a.steps ≤ slice) }
    ensures next { IfOk result (λ a. a.next ≡ look_of (proc_of process.new)) }
    ensures stops { IfOk result (λ a. a.steps ≢ slice → is_local (proc_of process.new) ≡ false) }
{
    let Some(body) = &mut process.body else {
        unreachable!()
    };
    let made = proceed(alloc, work, body, slice)?;
    let Made {
        steps,
        cost,
        lines,
        next,
    } = made;
    process.lines.append(lines)?;
    Ok(Advanced { steps, cost, next })
}
