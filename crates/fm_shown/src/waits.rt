//! Who waits for what.

ghost use Rattle.std.specs.Prelude.{◌≡◌, ◌++◌, ℕ, Some, option_map, IfOk, OnOk};
ghost use Rattle.fm_mean.specs.declared.outcome.At.TheVariants as at;
ghost use Rattle.fm_net.specs.Machine.{Place};
ghost use Rattle.fm_proc_language.specs.Slots.{in_slot};
ghost use Rattle.fm_procs.specs.Kept.{AreChildren, HasFamily, IsTold};
ghost use Rattle.fm_procs.specs.Readings.{order_of, proc_in, procs_of};
ghost use Rattle.fm_procs.specs.Waiting.{inport_in};
ghost use Rattle.fm_shown.specs.Outcome.{awaited, line_in, wait_at};
ghost use Rattle.fm_shown.specs.Waits.{received_by, joined_by, asked_by, told_by};

use fm_base::{Line, NoMemory, Path};
use fm_code::{Ask, Body};
use fm_machine_calls::{Look, line_of};
use fm_mean::{At, Wait};
use fm_net::number_behind;
use fm_proc_events::{Phase, Process};
use fm_proc_slots::Slots;
use fm_procs::{Entries, Entry, is_join};
use fm_run::join_of;
use std::alloc::Global;

// A message of the channel of the inport in a slot, where an inport stands there.
fn at_inport(alloc: Global, slots: &Slots, slot: i64) -> Result<Option<At>, NoMemory>
    ensures { IfOk result (λ o. o ≡ option_map at.Receive (inport_in (in_slot slots.now slot))) }
{
    match slots.port(slot) {
        Some(port) => {
            if port.is_outport() {
                return Ok(None);
            }
            let name = port.channel().copy(alloc)?;
            Ok(Some(At::Receive(name)))
        }
        None => Ok(None),
    }
}

// What a running process waits for that asks for this.
fn received(alloc: Global, slots: &Slots, ask: &Ask) -> Result<Option<At>, NoMemory>
    ensures { IfOk result (λ o. o ≡ received_by slots.now ask.now) }
{
    match ask {
        Ask::Fail { .. } => Ok(None),
        Ask::LetGo { .. } => Ok(None),
        Ask::Channel { .. } => Ok(None),
        Ask::Merger { .. } => Ok(None),
        Ask::Send { .. } => Ok(None),
        Ask::Receive { slot, .. } => at_inport(alloc, slots, *slot),
        Ask::Probe { .. } => Ok(None),
        Ask::Begin { .. } => Ok(None),
        Ask::Join { .. } => Ok(None),
        Ask::End => Ok(None),
    }
}

// The first of so many children that hasn't ended.
fn awaited(
    alloc: Global,
    processes: &Entries,
    first: u32,
    count: usize,
) -> Result<Option<Path>, NoMemory>
    ensures { IfOk result (λ o. (q : Place) (b : ℕ) → AreChildren (order_of processes.now) first q b count
        → o ≡ awaited (procs_of processes.now) q b 1 count) }
{
    'children: for place in 0..count {
        let number = number_behind(first, place)?;
        if !processes.has_ended(number) {
            return processes.path_of(alloc, number);
        }
    }
    Ok(None)
}

// What a process waits for that asks for this, and has so many children to join.
fn joined(
    alloc: Global,
    processes: &Entries,
    first: u32,
    count: usize,
    ask: &Ask,
) -> Result<Option<At>, NoMemory>
    ensures { IfOk result (λ o. (q : Place) (b : ℕ) → AreChildren (order_of processes.now) first q b count
        → o ≡ joined_by (procs_of processes.now) q b count ask.now) }
{
    if !is_join(ask) {
        return Ok(None);
    }
    let child = awaited(alloc, processes, first, count)?;
    Ok(join_of(child))
}

// What a process waits for that asks for this.
fn waits_asked(
    alloc: Global,
    processes: &Entries,
    entry: &Entry,
    ask: &Ask,
) -> Result<Option<At>, NoMemory>
    ensures { IfOk result (λ o. (q : Place)
        → HasFamily (order_of processes.now) q (proc_in entry.now).phase entry.now.first_child
        → o ≡ asked_by (procs_of processes.now) q (proc_in entry.now).phase (proc_in entry.now).slots ask.now) }
{
    let process: &Process = &entry.process.held;
    match &process.phase {
        Phase::Running => received(alloc, &process.slots, ask),
        Phase::Joining { block: _, kids } => {
            joined(alloc, processes, entry.first_child, kids.len(), ask)
        }
        Phase::Ended => Ok(None),
        Phase::Faulted { .. } => Ok(None),
    }
}

// What a process waits for, where it waits.
fn waits(alloc: Global, processes: &Entries, entry: &Entry) -> Result<Option<At>, NoMemory>
    ensures { IfOk result (λ o. (q : Place)
        → HasFamily (order_of processes.now) q (proc_in entry.now).phase entry.now.first_child
        → o ≡ told_by (procs_of processes.now) q (proc_in entry.now).phase (proc_in entry.now).slots entry.now.next) }
{
    match &entry.next {
        Look::Goes => Ok(None),
        Look::Asks(ask) => waits_asked(alloc, processes, entry, ask),
        Look::Stuck => Ok(None),
    }
}

// The line at which a process stands.
fn line_at(body: &Option<Body>) -> Line
    ensures { result.0 ≡ line_in body.now }
{
    match body {
        Some(body) => line_of(body),
        None => Line(0),
    }
}

/// Adds what a process waits for, if it waits.
pub(crate) fn push_wait(
    alloc: Global,
    processes: &Entries,
    all: &mut Vec<Wait>,
    path: &Path,
    entry: &Entry,
) -> Result<(), NoMemory>
    requires told { IsTold entry.now }
    requires family { HasFamily (order_of processes.now) path.now (proc_in entry.now).phase entry.now.first_child }
    ensures { OnOk result
        (all.new.items ≡ all.old.items ++ wait_at (procs_of processes.now) (path.now, proc_in entry.now)) }
{
    match waits(alloc, processes, entry)? {
        Some(at) => {
            let path = path.copy(alloc)?;
            let process: &Process = &entry.process.held;
            let line = line_at(&process.body);
            all.push(Wait { path, line, at })?;
            Ok(())
        }
        None => Ok(()),
    }
}
