//! The join of a block: its children come to their parent, one after the other.

ghost use Rattle.std.specs.Prelude.{◌≡◌, ◌+◌, ◌<◌, ◌^◌, ℕ, true, is_some, List, [], map, Some, IfOk, OnErr, OnOk};
ghost use Rattle.std.specs.FinMap.{get};
ghost use Rattle.fm_chan.specs.Bodies.{chans_of};
ghost use Rattle.fm_chan.specs.Woken.{WakesAll};
ghost use Rattle.fm_finmap.specs.Changes.{alters};
ghost use Rattle.fm_net.specs.Machine.{Place, child_changes, gathered};
ghost use Rattle.fm_finmap.specs.Rows.{place_at};
ghost use Rattle.fm_net.specs.Starts.{starts_at};
ghost use Rattle.fm_proc_language.specs.Processes.{CodeProc, code_language, emptied, has_ended as is_done};
ghost use Rattle.fm_code.specs.declared.ask.Ask.TheVariants as ask;
ghost use Rattle.fm_machine_calls.specs.declared.looking.Look.TheVariants as look;
ghost use Rattle.fm_procs.specs.Joinings.{HasJoined, HasRoomToJoin};
ghost use Rattle.fm_procs.specs.Lefts.{left_by};
ghost use Rattle.fm_procs.specs.Rooms.{left_room, lefts_room};
ghost use Rattle.fm_proc_events.specs.Told.{is_joining, look_of};
ghost use Rattle.fm_procs.specs.Blocks.{HasRoomFrom, HaveEnded, OpensAt};
ghost use Rattle.fm_procs.specs.Kept.{AreChildren, AreFamilies, AreFamiliesBut, AreToldBut};
ghost use Rattle.fm_procs.specs.Readings.{IsActor, actor_place, code_step, order_of, procs_of};
ghost use Rattle.fm_procs.specs.Stepping.{JoinsAt, joined_next};

use crate::measuring::left_room;
use crate::opening::{OpenJoin, open_join};
use crate::process::Entries;
use fm_base::NoMemory;
use fm_chan::Channels;
use fm_code::Ask;
use fm_net::{Family, number_behind};
use fm_net_procs::Actor;
use std::alloc::Global;

/// The statement behind a join.
pub(crate) fn joined_next(ask: &Ask) -> Option<u32>
    ensures { result ≡ joined_next ask.now }
{
    match ask {
        Ask::Fail { .. } => None,
        Ask::LetGo { .. } => None,
        Ask::Channel { .. } => None,
        Ask::Merger { .. } => None,
        Ask::Send { .. } => None,
        Ask::Receive { .. } => None,
        Ask::Probe { .. } => None,
        Ask::Begin { .. } => None,
        Ask::Join { next } => Some(*next),
        Ask::End => None,
    }
}

// The number of the child at this place, from 0, of a family whose numbers are known to fit.
fn child_number(family: Family, place: usize) -> u32
    requires { family.first + place < 2 ^ 32 }
    ensures { result ≡ family.first + place }
{
    family.first + place as u32
}

// The room for all ports that a process still has.
fn left_room_of(entries: &Entries, number: u32) -> Result<usize, NoMemory>
    ensures { IfOk result (λ n. (q : Place) (y : CodeProc) → place_at entries.now.rows number ≡ Some q
        → get (procs_of entries.now) q ≡ Some y → n ≡ left_room y.body) }
{
    match entries.process(number) {
        Some(process) => left_room(&process.held),
        None => Ok(0),
    }
}

// The room for all ports that the children of a family still have.
fn lefts_room(entries: &Entries, family: Family) -> Result<usize, NoMemory>
    ensures { IfOk result (λ n. (q : Place) (b : ℕ) (children : List CodeProc)
        → AreChildren (order_of entries.now) family.first q b family.count
        → gathered is_done (procs_of entries.now) q b 1 family.count ≡ Some children
        → n ≡ lefts_room (map left_by children)) }
{
    let mut room: usize = 0;
    'children: for place in 0..family.count {
        let number = number_behind(family.first, place)?;
        room = room
            .checked_add(left_room_of(entries, number)?)
            .ok_or(NoMemory)?;
    }
    Ok(room)
}

// Begins the join of a process, with room for so many ports that its children still have. After want of memory nothing
// has changed.
fn open_join_of(
    alloc: Global,
    entries: &mut Entries,
    actor: &Actor,
    next: u32,
    room: usize,
) -> Result<OpenJoin, NoMemory>
    requires actor { IsActor entries.old actor.now }
    requires look { (y : CodeProc) → get (procs_of entries.old) (actor_place actor.now) ≡ Some y
        → look_of y ≡ look.Asks (ask.Join next) }
    requires joining { (y : CodeProc) → get (procs_of entries.old) (actor_place actor.now) ≡ Some y
        → is_joining y ≡ true }
    ensures order { order_of entries.new ≡ order_of entries.old }
    ensures told { AreToldBut (actor_place actor.now) entries.old → AreToldBut (actor_place actor.now) entries.new }
    ensures families { AreFamilies entries.old → AreFamilies entries.new }
    ensures opens { IfOk result (λ j. (y : CodeProc) → get (procs_of entries.old) (actor_place actor.now) ≡ Some y
        → OpensAt (actor_place actor.now) y j (procs_of entries.old) (procs_of entries.new)) }
    ensures room { IfOk result (λ j. HasRoomToJoin j room) }
    ensures stays { OnErr result (procs_of entries.new ≡ procs_of entries.old) }
{
    match entries.rows.get_mut(actor.number) {
        Some(entry) => open_join(alloc, &mut entry.process.held, next, room),
        None => unreachable!(),
    }
}

// The children of a family, which have ended, come to their parent in the order of their starts. Takes no memory.
fn take_children(alloc: Global, entries: &mut Entries, family: Family, join: &mut OpenJoin)
    requires numbers { family.first + family.count < 2 ^ 32 }
    requires room { HasRoomFrom entries.old family 0 join.old }
    ensures order { order_of entries.new ≡ order_of entries.old }
    ensures processes { (q : Place) (b : ℕ) → AreChildren (order_of entries.old) family.first q b family.count →
        procs_of entries.new ≡ alters (child_changes emptied q b 1 family.count) (procs_of entries.old) }
    ensures joined { (q : Place) (b : ℕ) (children : List CodeProc) (y z : CodeProc)
        → AreChildren (order_of entries.old) family.first q b family.count
        → gathered is_done (procs_of entries.old) q b 1 family.count ≡ Some children
        → HasJoined y [] z join.old → HasJoined y (map left_by children) z join.new }
    ensures told { (own q : Place) (b : ℕ) (children : List CodeProc)
        → AreChildren (order_of entries.old) family.first q b family.count
        → gathered is_done (procs_of entries.old) q b 1 family.count ≡ Some children
        → AreToldBut own entries.old → AreToldBut own entries.new }
    ensures families { AreFamilies entries.old → AreFamilies entries.new }
{
    'children: for place in 0..family.count {
        let number = child_number(family, place);
        let Some(left) = entries.release(alloc, number) else {
            unreachable!()
        };
        join.take(alloc, left);
    }
}

// Ends the join of a process: the cost. Takes no memory.
fn close_join(entries: &mut Entries, actor: &Actor, join: OpenJoin, channels: &mut Channels) -> u64
    requires actor { IsActor entries.old actor.now }
    ensures order { order_of entries.new ≡ order_of entries.old }
    ensures told { AreToldBut (actor_place actor.now) entries.old → AreToldBut (actor_place actor.now) entries.new }
    ensures families { AreFamiliesBut (actor_place actor.now) entries.old
        → AreFamiliesBut (actor_place actor.now) entries.new }
    ensures joins { (y z : CodeProc) (children : List CodeProc)
        → get (procs_of entries.old) (actor_place actor.now) ≡ Some z
        → HasJoined y (map left_by children) z join
        → JoinsAt (actor_place actor.now) y children (chans_of channels.old) (procs_of entries.old)
        (procs_of entries.new) (chans_of channels.new) result }
    ensures waking { WakesAll channels.old channels.new }
{
    match entries.rows.get_mut(actor.number) {
        Some(entry) => join.close(&mut entry.process.held, channels),
        None => unreachable!(),
    }
}

// Joins a process with these children, which have ended: the cost. After want of memory nothing has changed.
fn join(
    alloc: Global,
    entries: &mut Entries,
    actor: &Actor,
    family: Family,
    channels: &mut Channels,
    next: u32,
) -> Result<u64, NoMemory>
    requires actor { IsActor entries.old actor.now }
    requires look { (y : CodeProc) → get (procs_of entries.old) (actor_place actor.now) ≡ Some y
        → look_of y ≡ look.Asks (ask.Join next) }
    requires joining { (y : CodeProc) → get (procs_of entries.old) (actor_place actor.now) ≡ Some y
        → is_joining y ≡ true }
    requires ended { HaveEnded entries.old (actor_place actor.now) family }
    ensures order { order_of entries.new ≡ order_of entries.old }
    ensures told { AreToldBut (actor_place actor.now) entries.old → AreToldBut (actor_place actor.now) entries.new }
    ensures families { OnOk result (AreFamilies entries.old → AreFamiliesBut (actor_place actor.now) entries.new) }
    ensures joins { IfOk result (λ cost. (y : CodeProc) (b : ℕ) (children : List CodeProc)
        → get (procs_of entries.old) (actor_place actor.now) ≡ Some y
        → AreChildren (order_of entries.old) family.first (actor_place actor.now) b family.count
        → gathered is_done (procs_of entries.old) (actor_place actor.now) b 1 family.count ≡ Some children
        → JoinsAt (actor_place actor.now) y children (chans_of channels.old)
        (alters (child_changes emptied (actor_place actor.now) b 1 family.count) (procs_of entries.old))
        (procs_of entries.new) (chans_of channels.new) cost) }
    ensures waking { OnOk result (WakesAll channels.old channels.new) }
    ensures stays { OnErr result
        ((procs_of entries.new ≡ procs_of entries.old) × (chans_of channels.new ≡ chans_of channels.old)) }
    ensures families_stay { OnErr result (AreFamilies entries.old → AreFamilies entries.new) }
{
    number_behind(family.first, family.count)?;
    let room = lefts_room(entries, family)?;
    let mut join = open_join_of(alloc, entries, actor, next, room)?;
    take_children(alloc, entries, family, &mut join);
    Ok(close_join(entries, actor, join, channels))
}

/// Joins a process with the children of its block, which have ended: the cost. After want of memory nothing has
/// changed.
pub(crate) fn join_block(
    alloc: Global,
    entries: &mut Entries,
    actor: &Actor,
    channels: &mut Channels,
    next: u32,
) -> Result<u64, NoMemory>
    requires families { AreFamilies entries.old }
    requires actor { IsActor entries.old actor.now }
    requires can { is_some
        (code_step (record { procs = procs_of entries.old; chans = chans_of channels.old }) (actor_place actor.now))
        ≡ true }
    requires look { (y : CodeProc) → get (procs_of entries.old) (actor_place actor.now) ≡ Some y
        → look_of y ≡ look.Asks (ask.Join next) }
    ensures step { IfOk result (λ cost. code_step
        (record { procs = procs_of entries.old; chans = chans_of channels.old }) (actor_place actor.now)
        ≡ Some (record { procs = procs_of entries.new; chans = chans_of channels.new }, cost)) }
    ensures starts { OnOk result (starts_at code_language
        (record { procs = procs_of entries.old; chans = chans_of channels.old }) (actor_place actor.now) ≡ []) }
    ensures families { OnOk result (AreFamilies entries.new) }
    ensures order { order_of entries.new ≡ order_of entries.old }
    ensures told { AreToldBut (actor_place actor.now) entries.old → AreToldBut (actor_place actor.now) entries.new }
    ensures waking { OnOk result (WakesAll channels.old channels.new) }
    ensures stays { OnErr result
        ((procs_of entries.new ≡ procs_of entries.old) × (chans_of channels.new ≡ chans_of channels.old)) }
    ensures families_stay { OnErr result (AreFamilies entries.new) }
{
    let family = entries.family(actor.number);
    let cost = join(alloc, entries, actor, family, channels, next)?;
    Ok(cost)
}
