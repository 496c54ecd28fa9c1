//! A process does its event.

ghost use Rattle.std.specs.Prelude.{◌≡◌, ◌≢◌, [], map, true, IfOk, OnErr, OnOk};
ghost use Rattle.fm_code.specs.declared.ask.Ask.TheVariants.{End};
ghost use Rattle.fm_machine_calls.specs.declared.looking.Look.TheVariants.{Asks};
ghost use Rattle.fm_chan.specs.Bodies.{chans_of};
ghost use Rattle.fm_chan.specs.Woken.{WakesAll};
ghost use Rattle.fm_proc_events.specs.Performs.{CanPerform, MakesNew, Performs, is_at_port};
ghost use Rattle.fm_proc_events.specs.Phases.{boxed_of, proc_of};
ghost use Rattle.fm_proc_events.specs.Told.{look_of};

use crate::beginning::begin;
use crate::ending::end;
use crate::letting_go::let_go;
use fm_base::{NoMemory, Path};
use fm_chan::Channels;
use fm_code::Ask;
use fm_machine_instr::Work;
use fm_proc_events::{Process, fail, make_channel, make_merger, probe, receive, send};
use std::alloc::Global;

/// What an event leaves to be done: the children to put at their places. And its cost.
#[derive(Drop)]
pub struct StepEnd {
    /// The children that start, in order.
    pub children: Vec<Box<Process>>,
    /// The cost in turns.
    pub cost: u64,
}

#[inline(always)]
fn alone(alloc: Global, cost: u64) -> StepEnd
    ensures children { result.children.items ≡ [] }
    ensures cost { result.cost ≡ cost }
{
    StepEnd {
        children: Vec::new(alloc),
        cost,
    }
}

/// Does the event of a process at one of its ports: the cost. The room of its operands is kept for the next statement.
#[inline(always)]
fn at_port(
    alloc: Global,
    work: &mut Work,
    path: &Path,
    process: &mut Process,
    channels: &mut Channels,
    ask: Ask,
) -> Result<u64, NoMemory>
    requires at { is_at_port ask ≡ true }
    requires look { look_of (proc_of process.old) ≡ Asks ask }
    requires can { CanPerform (proc_of process.old) (chans_of channels.old) }
    ensures performs { IfOk result (λ cost. Performs path.now (proc_of process.old) (chans_of channels.old)
        (proc_of process.new) [] (chans_of channels.new) cost) }
    ensures stays { OnErr result (proc_of process.new ≡ proc_of process.old) }
    ensures channels { OnErr result (chans_of channels.new ≡ chans_of channels.old) }
    ensures waking { OnOk result (WakesAll channels.old channels.new) }
{
    match ask {
        Ask::Send { slot, items, next } => {
            let cost = send(alloc, path, process, channels, slot, &items, next)?;
            work.scratch.operands = items;
            Ok(cost)
        }
        Ask::Receive {
            slot,
            items,
            status,
            at_end,
            next,
        } => {
            let cost = receive(
                alloc, path, process, channels, slot, &items, status, at_end, next,
            )?;
            work.scratch.operands = items;
            Ok(cost)
        }
        Ask::Probe { slot, empty, next } => {
            probe(path, process, channels, slot, empty, next);
            Ok(1)
        }
        Ask::Fail { .. } => unreachable!(),
        Ask::LetGo { .. } => unreachable!(),
        Ask::Channel { .. } => unreachable!(),
        Ask::Merger { .. } => unreachable!(),
        Ask::Begin { .. } => unreachable!(),
        Ask::Join { .. } => unreachable!(),
        Ask::End => unreachable!(),
    }
}

/// Does the event of a process that its next statement asks for. After want of memory the process and the channels are
/// as they were, whatever is asked.
#[inline(always)]
pub fn perform(
    alloc: Global,
    work: &mut Work,
    path: &Path,
    process: &mut Process,
    channels: &mut Channels,
    ask: Ask,
) -> Result<StepEnd, NoMemory>
    requires look { look_of (proc_of process.old) ≡ Asks ask }
    requires can { CanPerform (proc_of process.old) (chans_of channels.old) }
    requires new { MakesNew path.now (proc_of process.old) (chans_of channels.old) }
    ensures performs { IfOk result (λ d. Performs path.now (proc_of process.old) (chans_of channels.old)
        (proc_of process.new) (map boxed_of d.children.items) (chans_of channels.new) d.cost) }
    ensures stays { OnErr result (proc_of process.new ≡ proc_of process.old) }
    ensures channels { OnErr result (chans_of channels.new ≡ chans_of channels.old) }
    ensures waking { OnOk result (WakesAll channels.old channels.new) }
    ensures ends { OnErr result (ask ≢ End) }
{
    match ask {
        Ask::Fail { line, fault } => {
            fail(process, line, fault);
            Ok(alone(alloc, 1))
        }
        Ask::LetGo { slots } => {
            let cost = let_go(alloc, work, path, process, channels, slots)?;
            Ok(alone(alloc, cost))
        }
        Ask::Channel {
            inport,
            outport,
            next,
        } => {
            make_channel(alloc, path, process, channels, inport, outport, next)?;
            Ok(alone(alloc, 1))
        }
        Ask::Merger {
            inport,
            outports,
            next,
        } => {
            let cost = make_merger(alloc, path, process, channels, inport, outports, next)?;
            Ok(alone(alloc, cost))
        }
        Ask::Send { .. } => Ok(alone(alloc, at_port(alloc, work, path, process, channels, ask)?)),
        Ask::Receive { .. } => Ok(alone(
            alloc,
            at_port(alloc, work, path, process, channels, ask)?,
        )),
        Ask::Probe { .. } => Ok(alone(alloc, at_port(alloc, work, path, process, channels, ask)?)),
        Ask::Begin { next } => begin(alloc, path, process, next),
        Ask::Join { next: _ } => unreachable!(),
        Ask::End => {
            end(path, process, channels);
            Ok(alone(alloc, 1))
        }
    }
}
