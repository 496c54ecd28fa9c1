//! What a run shows when it has ended.

ghost use Rattle.std.specs.Prelude.{◌≡◌, ◌++◌, ℕ, Some, [], option_map, IfOk, OnOk};
ghost use Rattle.std.specs.List.{flat_map};
ghost use Rattle.std.specs.FinMap.{entries, get};
ghost use Rattle.std.specs.Option.{option_copied};
ghost use Rattle.fm_rules.specs.declared.program.Program as declared;
ghost use Rattle.fm_mean.specs.Actions as action;
ghost use Rattle.fm_mean.specs.Actions.{action_of};
ghost use Rattle.fm_mean.specs.Names.{unit_at};
ghost use Rattle.fm_mean.specs.Outcome.{lines_at, fault_at, awaited, line_at, line_within, need_of, waits_by, wait_at, outcome_of};
ghost use Rattle.fm_plain_frame.specs.Frames.{proc_of};
ghost use Rattle.fm_plain.specs.Events.{event_by};
ghost use Rattle.fm_plain.specs.Looking.{IsNext};
ghost use Rattle.fm_net.specs.Machine.{Place};
ghost use Rattle.fm_finmap.specs.Rows.{place_at};
ghost use Rattle.fm_net_procs.specs.Kept.{AreChildren};
ghost use Rattle.fm_plain_net.specs.Held.{AreFamilies, AreLookedAt, HasFamily};
ghost use Rattle.fm_plain_net.specs.Readings.{order_of, proc_in, procs_of, state_of};
ghost use Rattle.fm_plain_net.specs.Shown.{line_of_frame};

use crate::holders::holders;
use crate::processes::{Processes, Slot, Trees};
use crate::shown::shown_all;
use fm_base::{Line, NoMemory, Path, Seq};
use fm_mean::{At, FaultAt, Outcome, Wait};
use fm_net::{Family, number_behind};
use fm_plain::{Event, Next};
use fm_plain_frame::{Frame, Phase, PlainProc, UnitView};
use fm_rules::Program;
use fm_run::{Gathered, join_of, push_lines};
use std::alloc::Global;

/// Adds the fault of the process at this path, if it has one.
pub fn push_fault(
    alloc: Global,
    all: &mut Vec<FaultAt>,
    path: &Path,
    process: &PlainProc,
) -> Result<(), NoMemory>
    ensures { OnOk result
        ((p : declared.Program) → all.new.items ≡ all.old.items ++ fault_at (path.now, proc_of p process.now)) }
{
    match process.phase {
        Phase::Faulted(line, fault) => {
            let path = path.copy(alloc)?;
            all.push(FaultAt { path, line, fault })?;
            Ok(())
        }
        Phase::Running => Ok(()),
        Phase::Joining(_, _) => Ok(()),
        Phase::Ended => Ok(()),
    }
}

// The first of children that hasn't ended.
fn awaited(alloc: Global, processes: &Processes, family: Family) -> Result<Option<Path>, NoMemory>
    ensures { IfOk result (λ o. (p : declared.Program) (q : Place) (b : ℕ)
        → AreChildren (order_of processes.now) family.first q b family.count
        → o ≡ awaited (procs_of p processes.now) q b 1 family.count) }
{
    'children: for place in 0..family.count {
        let number = number_behind(family.first, place)?;
        if !processes.has_ended(number) {
            return processes.path_of(alloc, number);
        }
    }
    Ok(None)
}

// What a process waits for that stands at this event, where it waits.
fn waits_at(
    alloc: Global,
    processes: &Processes,
    slot: &Slot,
    event: &Event,
) -> Result<Option<At>, NoMemory>
    ensures { IfOk result (λ o. (p : declared.Program) (q : Place)
        → HasFamily (order_of processes.now) q (proc_in p slot.now).phase slot.now.first_child
        → action_of p (proc_in p slot.now) ≡ action.Meets (event_by (proc_in p slot.now).phase event.now)
        → o ≡ waits_by (procs_of p processes.now) q (need_of p (proc_in p slot.now))) }
{
    match event {
        Event::Receive { channel, .. } => {
            let name = channel.copy(alloc)?;
            Ok(Some(At::Receive(name)))
        }
        Event::Join { .. } => {
            let child = awaited(alloc, processes, slot.family())?;
            Ok(join_of(child))
        }
        Event::Fail(_, _) => Ok(None),
        Event::Make { .. } => Ok(None),
        Event::Send { .. } => Ok(None),
        Event::Probe { .. } => Ok(None),
        Event::Begin => Ok(None),
        Event::End => Ok(None),
    }
}

// What a process waits for, where it waits.
fn waits(alloc: Global, processes: &Processes, slot: &Slot) -> Result<Option<At>, NoMemory>
    ensures { IfOk result (λ o. (p : declared.Program) (q : Place)
        → HasFamily (order_of processes.now) q (proc_in p slot.now).phase slot.now.first_child
        → IsNext p (proc_in p slot.now) slot.now.next
        → o ≡ waits_by (procs_of p processes.now) q (need_of p (proc_in p slot.now))) }
{
    match &slot.next {
        Next::Meets(event) => waits_at(alloc, processes, slot, event),
        Next::Steps => Ok(None),
        Next::Rests => Ok(None),
    }
}

fn push_wait(
    alloc: Global,
    program: &Program,
    processes: &Processes,
    all: &mut Vec<Wait>,
    path: &Path,
    slot: &Slot,
) -> Result<(), NoMemory>
    requires next { IsNext program.now (proc_in program.now slot.now) slot.now.next }
    requires family { HasFamily (order_of processes.now) path.now (proc_in program.now slot.now).phase
        slot.now.first_child }
    ensures { OnOk result (all.new.items
        ≡ all.old.items
        ++ wait_at program.now (procs_of program.now processes.now) (path.now, proc_in program.now slot.now)) }
{
    match waits(alloc, processes, slot)? {
        Some(at) => {
            let path = path.copy(alloc)?;
            let line = line_at(program, &slot.process.plain);
            all.push(Wait { path, line, at })?;
            Ok(())
        }
        None => Ok(()),
    }
}

/// The line at which a process stands.
pub fn line_at(program: &Program, process: &PlainProc) -> Line
    ensures { result.0 ≡ line_at program.now (proc_of program.now process.now) }
{
    match top_frame(process) {
        Some(frame) => line_of(program, frame),
        None => Line(0),
    }
}

fn top_frame(process: &PlainProc) -> Option<&Frame>
    ensures { (p : declared.Program) → line_at p (proc_of p process.now) ≡ line_of_frame p (option_copied result) }
{
    match &process.top {
        Some(frame) => Some(frame),
        None => process.below.last(),
    }
}

fn line_of(program: &Program, frame: &Frame) -> Line
    ensures { result.0 ≡ line_within (unit_at program.now frame.now.unit) frame.now.entry }
{
    match UnitView::new(program, frame.unit) {
        Some(unit) => match unit.entry(frame.entry) {
            Some((entry, _)) => entry.line,
            None => Line(0),
        },
        None => Line(0),
    }
}

// Adds what the process at this path shows.
fn add_process(
    alloc: Global,
    program: &Program,
    all: &mut Gathered,
    processes: &Processes,
    path: &Path,
    slot: &Slot,
) -> Result<(), NoMemory>
    requires next { IsNext program.now (proc_in program.now slot.now) slot.now.next }
    requires family { HasFamily (order_of processes.now) path.now (proc_in program.now slot.now).phase
        slot.now.first_child }
    ensures lines { OnOk result
        (all.new.lines.items ≡ all.old.lines.items ++ lines_at (path.now, proc_in program.now slot.now)) }
    ensures faults { OnOk result
        (all.new.faults.items ≡ all.old.faults.items ++ fault_at (path.now, proc_in program.now slot.now)) }
    ensures waits { OnOk result (all.new.waits.items
        ≡ all.old.waits.items
        ++ wait_at program.now (procs_of program.now processes.now) (path.now, proc_in program.now slot.now)) }
{
    push_lines(alloc, &mut all.lines, path, slot.process.plain.lines())?;
    push_fault(alloc, &mut all.faults, path, &slot.process.plain)?;
    push_wait(alloc, program, processes, &mut all.waits, path, slot)
}

fn gathered(alloc: Global, program: &Program, processes: &Processes) -> Result<Gathered, NoMemory>
    requires next { AreLookedAt program.now processes.now }
    requires families { AreFamilies program.now processes.now }
    ensures lines { IfOk result
        (λ all. all.lines.items ≡ flat_map lines_at (entries (procs_of program.now processes.now))) }
    ensures faults { IfOk result
        (λ all. all.faults.items ≡ flat_map fault_at (entries (procs_of program.now processes.now))) }
    ensures waits { IfOk result (λ all. all.waits.items
        ≡ flat_map (wait_at program.now (procs_of program.now processes.now))
        (entries (procs_of program.now processes.now))) }
{
    let mut all = Gathered::new(alloc);
    let rows = processes.rows.in_path_order(alloc)?;
    'processes: for row in &rows {
        add_process(alloc, program, &mut all, processes, row.0, row.1)?;
    }
    Ok(all)
}

// The process of a number, as it goes along its statements.
fn plain_of(processes: &Processes, number: u32) -> Option<&PlainProc>
    ensures { (p : declared.Program) (q : Place) → place_at processes.now.rows number ≡ Some q
        → option_map (proc_of p) (option_copied result) ≡ get (procs_of p processes.now) q }
{
    match processes.process(number) {
        Some(process) => Some(&process.plain),
        None => None,
    }
}

/// What a run shows when it has ended at this cost in turns: output, faults and waits in path order, the
/// variables of main, and who holds the open writers.
pub(crate) fn outcome(
    alloc: Global,
    net: &Trees,
    program: &Program,
    used: u64,
) -> Result<Outcome, NoMemory>
    requires next { AreLookedAt program.now net.now.entries }
    requires families { AreFamilies program.now net.now.entries }
    requires main { place_at net.now.entries.rows 0 ≡ Some [] }
    ensures { IfOk result (λ o. o ≡ outcome_of program.now used (state_of program.now net.now)) }
{
    let Gathered {
        lines,
        faults,
        waits,
    } = gathered(alloc, program, &net.entries)?;
    let variables = shown_all(alloc, program, plain_of(&net.entries, 0))?;
    let holders = holders(alloc, net, program)?;
    Ok(Outcome {
        lines: Seq::from_vec(lines),
        variables: Seq::from_vec(variables),
        faults: Seq::from_vec(faults),
        waits: Seq::from_vec(waits),
        holders: Seq::from_vec(holders),
        main_ended: net.entries.has_ended(0),
        used,
    })
}
