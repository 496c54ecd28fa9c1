//! Local steps of a process, one after the other.

ghost use Rattle.std.specs.Prelude.{◌≡◌, true, IfOk, OnErr};
ghost use Rattle.fm_plain_frame.specs.Frames.{is_running, phase_of, proc_of};
ghost use Rattle.fm_plain.specs.Advance.{IsAdvanced, IsStop, IsUnderWay, StopsAt, has_local};

use crate::event::Event;
use crate::local::{Acted, act};
use fm_base::NoMemory;
use fm_plain_frame::{LetGo, PlainProc};
use fm_rules::Program;
use std::alloc::Global;

/// Why a process stopped.
#[derive(Drop)]
pub enum Stop {
    /// It made as many steps as it was allowed.
    More,
    /// It is at an event.
    Event(Event),
    /// It made one step more at this cost, which lets these ports go.
    LetsGo(LetGo, u64),
    /// Memory was wanting for the next step.
    Short,
}

/// What a process did.
#[derive(Drop)]
pub struct Advanced {
    /// Why it stopped.
    pub stop: Stop,
    /// The local steps that it made.
    pub steps: u32,
    /// Their cost in turns.
    pub cost: u64,
}

// Whether the next step of a process that runs is one of its own. It is tried on a twin.
fn is_twin_own(alloc: Global, program: &Program, process: &PlainProc) -> Result<bool, NoMemory>
    requires { is_running (phase_of process.now.phase) ≡ true }
    ensures { IfOk result (λ r. r ≡ has_local program.now (proc_of program.now process.now)) }
{
    let mut twin = process.twin(alloc, program)?;
    match act(alloc, program, &mut twin)? {
        Acted::Done(_) => Ok(true),
        Acted::Rest => Ok(false),
        Acted::Event(_) => Ok(false),
        Acted::LetsGo(_, _) => Ok(false),
    }
}

// Whether the next step of a process is one of its own.
fn is_own(alloc: Global, program: &Program, process: &PlainProc) -> Result<bool, NoMemory>
    ensures { IfOk result (λ r. r ≡ has_local program.now (proc_of program.now process.now)) }
{
    if process.is_running() {
        return is_twin_own(alloc, program, process);
    }
    Ok(false)
}

// Why a process stops that has made as many steps as it was allowed, and has one to spare for a step that isn't its
// own: that step.
fn stop_behind(alloc: Global, program: &Program, process: &mut PlainProc) -> Result<Stop, NoMemory>
    requires { IsUnderWay program.now (proc_of program.now process.old) }
    ensures ok { IfOk result
        (λ stop. IsStop program.now (proc_of program.now process.old) stop (proc_of program.now process.new)) }
    ensures err { OnErr result (proc_of program.now process.new ≡ proc_of program.now process.old) }
{
    if is_own(alloc, program, process)? {
        return Ok(Stop::More);
    }
    match act(alloc, program, process)? {
        Acted::Done(_) => unreachable!(),
        Acted::Rest => unreachable!(),
        Acted::Event(event) => Ok(Stop::Event(event)),
        Acted::LetsGo(ports, paid) => Ok(Stop::LetsGo(ports, paid as u64)),
    }
}

// Why a process stops that has made as many steps as it was allowed. Where memory is wanting, these steps stand.
fn last_stop(
    alloc: Global,
    program: &Program,
    process: &mut PlainProc,
    slice: u32,
    spare: bool,
) -> Stop
    requires { IsUnderWay program.now (proc_of program.now process.old) }
    ensures { StopsAt program.now slice spare slice (proc_of program.now process.old) result
        (proc_of program.now process.new) }
{
    if !spare {
        return Stop::More;
    }
    match stop_behind(alloc, program, process) {
        Ok(stop) => stop,
        Err(_) => Stop::Short,
    }
}

/// Makes local steps of a process that is under way, as many as `slice` at most, and stops before an event, which it
/// tells with its operands, or behind a step that lets ports go, which isn't among those that are counted. With a step
/// to `spare`, an event or such a step may stand behind a whole slice.
///
/// Want of memory leaves the process as it was. Where memory is wanting behind some steps these stand, and it stops as
/// `Short`.
pub fn advance(
    alloc: Global,
    program: &Program,
    process: &mut PlainProc,
    slice: u32,
    spare: bool,
) -> Result<Advanced, NoMemory>
    requires { IsUnderWay program.now (proc_of program.now process.old) }
    ensures ok { IfOk result (λ a. IsAdvanced program.now slice spare (proc_of program.now process.old) a
        (proc_of program.now process.new)) }
    ensures err { OnErr result (proc_of program.now process.new ≡ proc_of program.now process.old) }
{
    let mut cost: u64 = 0;
    'steps: for steps in 0..slice {
        let stop = match act(alloc, program, process) {
            Ok(Acted::Done(paid)) => {
                cost += paid as u64;
                continue;
            }
            Ok(Acted::Rest) => unreachable!(),
            Ok(Acted::Event(event)) => Stop::Event(event),
            Ok(Acted::LetsGo(ports, paid)) => Stop::LetsGo(ports, paid as u64),
            Err(want) => {
                if steps == 0 {
                    return Err(want);
                }
                Stop::Short
            }
        };
        return Ok(Advanced { stop, steps, cost });
    }
    let stop = last_stop(alloc, program, process, slice, spare);
    Ok(Advanced {
        stop,
        steps: slice,
        cost,
    })
}
