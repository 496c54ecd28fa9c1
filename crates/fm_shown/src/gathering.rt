//! What a run shows when it has ended.

ghost use Rattle.std.specs.Prelude.{◌≡◌, ◌++◌, Some, [], option_map, IfOk, OnOk};
ghost use Rattle.std.specs.List.{flat_map};
ghost use Rattle.std.specs.FinMap.{entries, get};
ghost use Rattle.std.specs.Option.{option_copied};
ghost use Rattle.fm_finmap.specs.Rows.{place_at};
ghost use Rattle.fm_net.specs.Machine.{Place};
ghost use Rattle.fm_proc_events.specs.Phases.{phase_of, proc_of};
ghost use Rattle.fm_procs.specs.Kept.{AreKept, HasFamily, IsTold};
ghost use Rattle.fm_procs.specs.Readings.{order_of, proc_in, procs_of, state_of};
ghost use Rattle.fm_procs.specs.Waiting.{ended_at};
ghost use Rattle.fm_shown.specs.Outcome.{lines_at, fault_at, fault_in, wait_at, outcome_with};

use crate::holders::holders_of;
use crate::rows::{Part, in_path_order};
use crate::waits::push_wait;
use fm_base::{NoMemory, Path, Seq};
use fm_mean::{FaultAt, Outcome, ShownVariable};
use fm_proc_events::{Phase, Process};
use fm_procs::{CodeProcs, Entries, Entry};
use fm_run::{Gathered, push_lines};
use std::alloc::Global;

fn push_fault(
    alloc: Global,
    all: &mut Vec<FaultAt>,
    path: &Path,
    phase: &Phase,
) -> Result<(), NoMemory>
    ensures { OnOk result (all.new.items ≡ all.old.items ++ fault_in path.now (phase_of phase.now)) }
{
    match phase {
        Phase::Running => Ok(()),
        Phase::Joining { .. } => Ok(()),
        Phase::Ended => Ok(()),
        Phase::Faulted { line, fault } => {
            let path = path.copy(alloc)?;
            let line = *line;
            let fault = *fault;
            all.push(FaultAt { path, line, fault })?;
            Ok(())
        }
    }
}

// Adds what the process at this path shows.
fn add_process(
    alloc: Global,
    all: &mut Gathered,
    processes: &Entries,
    path: &Path,
    entry: &Entry,
) -> Result<(), NoMemory>
    requires told { IsTold entry.now }
    requires family { HasFamily (order_of processes.now) path.now (proc_in entry.now).phase entry.now.first_child }
    ensures lines { OnOk result (all.new.lines.items ≡ all.old.lines.items ++ lines_at (path.now, proc_in entry.now)) }
    ensures faults { OnOk result
        (all.new.faults.items ≡ all.old.faults.items ++ fault_at (path.now, proc_in entry.now)) }
    ensures waits { OnOk result
        (all.new.waits.items ≡ all.old.waits.items ++ wait_at (procs_of processes.now) (path.now, proc_in entry.now)) }
{
    let process: &Process = &entry.process.held;
    push_lines(alloc, &mut all.lines, path, process.lines.as_slice())?;
    push_fault(alloc, &mut all.faults, path, &process.phase)?;
    push_wait(alloc, processes, &mut all.waits, path, entry)
}

fn gather(alloc: Global, processes: &Entries) -> Result<Gathered, NoMemory>
    requires { AreKept processes.now }
    ensures lines { IfOk result (λ all. all.lines.items ≡ flat_map lines_at (entries (procs_of processes.now))) }
    ensures faults { IfOk result (λ all. all.faults.items ≡ flat_map fault_at (entries (procs_of processes.now))) }
    ensures waits { IfOk result
        (λ all. all.waits.items ≡ flat_map (wait_at (procs_of processes.now)) (entries (procs_of processes.now))) }
{
    let mut all = Gathered::new(alloc);
    let rows = in_path_order(alloc, processes, Part::Shown)?;
    'entries: for row in &rows {
        add_process(alloc, &mut all, processes, row.0, row.1)?;
    }
    Ok(all)
}

/// The process of a number.
pub fn process_of(processes: &Entries, number: u32) -> Option<&Process>
    ensures { (q : Place) → place_at processes.now.rows number ≡ Some q
        → option_map proc_of (option_copied result) ≡ get (procs_of processes.now) q }
{
    match processes.process(number) {
        Some(process) => {
            let held: &Process = &process.held;
            Some(held)
        }
        None => None,
    }
}

// Whether the process of a number has ended.
fn has_ended(processes: &Entries, number: u32) -> bool
    ensures { (q : Place) → place_at processes.now.rows number ≡ Some q
        → result ≡ ended_at (get (procs_of processes.now) q) }
{
    processes.has_ended(number)
}

/// What a run shows when it has ended at this cost in turns and the variables of main hold this: output, faults and
/// waits in path order, and who holds the open writers.
pub fn outcome_with(
    alloc: Global,
    stacks: &CodeProcs,
    variables: Vec<ShownVariable>,
    used: u64,
) -> Result<Outcome, NoMemory>
    requires kept { AreKept stacks.now.entries }
    requires main { place_at stacks.now.entries.rows 0 ≡ Some [] }
    ensures { IfOk result (λ o. o ≡ outcome_with variables.items used (state_of stacks.now)) }
{
    let Gathered {
        lines,
        faults,
        waits,
    } = gather(alloc, &stacks.entries)?;
    let holders = holders_of(alloc, stacks)?;
    Ok(Outcome {
        lines: Seq::from_vec(lines),
        variables: Seq::from_vec(variables),
        faults: Seq::from_vec(faults),
        waits: Seq::from_vec(waits),
        holders: Seq::from_vec(holders),
        main_ended: has_ended(&stacks.entries, 0),
        used,
    })
}
