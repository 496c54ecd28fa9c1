//! The join of a block: its children leave what they have, and go to their parent.

ghost use Rattle.std.specs.Prelude.{◌≡◌, true, is_some, List, [], map, Some, IfOk, OnOk};
ghost use Rattle.std.specs.FinMap.{get};
ghost use Rattle.fm_chan.specs.Bodies.{chans_of};
ghost use Rattle.fm_chan.specs.Woken.{WakesAll};
ghost use Rattle.fm_net.specs.Starts.{starts_at};
ghost use Rattle.fm_mean.specs.Actions as action;
ghost use Rattle.fm_mean.specs.Actions.{action_of};
ghost use Rattle.fm_mean.specs.Process.{Proc};
ghost use Rattle.fm_mean.specs.Steps.{step, language};
ghost use Rattle.fm_plain_replies.specs.Joins.{frames_in, kids_in, left_frames};
ghost use Rattle.fm_plain_net.specs.Goes.{CanJoin, JoinsAt, joined_by};
ghost use Rattle.fm_plain_net.specs.Held.{AreFamilies, AreFamiliesBut, AreLookedAtBut, Fits};
ghost use Rattle.fm_plain_net.specs.Readings.{IsActor, actor_place, order_of, procs_of};

use crate::perform::join_all;
use crate::ports::Ports;
use crate::processes::Processes;
use fm_base::NoMemory;
use fm_chan::Channels;
use fm_net_procs::Actor;
use fm_plain::Event;
use fm_plain_replies::Ended;
use fm_rules::Program;
use std::alloc::Global;

/// The block that is joined by an event, the number of its children, and the entry behind.
pub(crate) fn joined_block(event: &Event) -> Option<(u32, usize, u32)>
    ensures { result ≡ joined_by event.now }
{
    match event {
        Event::Fail(_, _) => None,
        Event::Make { .. } => None,
        Event::Send { .. } => None,
        Event::Receive { .. } => None,
        Event::Probe { .. } => None,
        Event::Begin => None,
        Event::Join { block, count, next } => Some((*block, *count, *next)),
        Event::End => None,
    }
}

// Joins a process with children that left these frames.
fn join_one(
    alloc: Global,
    program: &Program,
    entries: &mut Processes,
    channels: &mut Channels,
    ports: &mut Ports,
    actor: &Actor,
    left: Vec<Ended>,
    next: u32,
) -> Result<u64, NoMemory>
    requires actor { IsActor entries.old actor.now }
    requires can { (x : Proc) → get (procs_of program.now entries.old) (actor_place actor.now) ≡ Some x
        → CanJoin program.now x next left.items ports.old }
    ensures next { OnOk result (AreLookedAtBut program.now (actor_place actor.now) entries.old
        → AreLookedAtBut program.now (actor_place actor.now) entries.new) }
    ensures families { OnOk result (AreFamiliesBut program.now (actor_place actor.now) entries.old
        → AreFamiliesBut program.now (actor_place actor.now) entries.new) }
    ensures order { OnOk result (order_of entries.new ≡ order_of entries.old) }
    ensures joins { IfOk result (λ cost. (x : Proc) (kids : List Proc)
        → get (procs_of program.now entries.old) (actor_place actor.now) ≡ Some x
        → map frames_in kids ≡ map (left_frames program.now) left.items
        → JoinsAt (actor_place actor.now) x next kids ports.old (chans_of channels.old)
        (procs_of program.now entries.old) (procs_of program.now entries.new) (chans_of channels.new) ports.new cost) }
    ensures waking { OnOk result (WakesAll channels.old channels.new) }
{
    match entries.rows.get_mut(actor.number) {
        Some(slot) => join_all(
            alloc,
            program,
            &mut slot.process.plain,
            channels,
            ports,
            left,
            next,
        ),
        None => unreachable!(),
    }
}

/// Joins a process with the children of its block, which have ended: the cost.
pub(crate) fn join_block(
    alloc: Global,
    program: &Program,
    entries: &mut Processes,
    channels: &mut Channels,
    ports: &mut Ports,
    actor: &Actor,
    block: u32,
    next: u32,
) -> Result<u64, NoMemory>
    requires fits { Fits program.now ports.old
        (record { procs = procs_of program.now entries.old; chans = chans_of channels.old }) }
    requires families { AreFamilies program.now entries.old }
    requires actor { IsActor entries.old actor.now }
    requires can { is_some (step program.now
        (record { procs = procs_of program.now entries.old; chans = chans_of channels.old }) (actor_place actor.now))
        ≡ true }
    requires event { (x : Proc) → get (procs_of program.now entries.old) (actor_place actor.now) ≡ Some x
        → action_of program.now x ≡ action.Meets (action.Join block (kids_in x.phase) next) }
    ensures step { IfOk result (λ cost. step program.now
        (record { procs = procs_of program.now entries.old; chans = chans_of channels.old }) (actor_place actor.now)
        ≡ Some (record { procs = procs_of program.now entries.new; chans = chans_of channels.new }, cost)) }
    ensures starts { OnOk result (starts_at (language program.now)
        (record { procs = procs_of program.now entries.old; chans = chans_of channels.old }) (actor_place actor.now)
        ≡ []) }
    ensures order { OnOk result (order_of entries.new ≡ order_of entries.old) }
    ensures next { OnOk result (AreLookedAtBut program.now (actor_place actor.now) entries.old
        → AreLookedAtBut program.now (actor_place actor.now) entries.new) }
    ensures families { OnOk result (AreFamilies program.now entries.new) }
    ensures fits { OnOk result (Fits program.now ports.new
        (record { procs = procs_of program.now entries.new; chans = chans_of channels.new })) }
    ensures waking { OnOk result (WakesAll channels.old channels.new) }
{
    let _block = block;
    let family = entries.family(actor.number);
    let left = entries.release_all(alloc, family)?;
    let cost = join_one(alloc, program, entries, channels, ports, actor, left, next)?;
    Ok(cost)
}
