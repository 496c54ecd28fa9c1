//! Joining: what children leave, and how a process goes on with it.

ghost use Rattle.std.specs.Prelude.{◌≡◌, ◌+◌, ◌≤◌, ◌++◌, ◌∷◌, ℕ, [], true, Option, Some, List, map, option_map, vec_len, vec_capacity, IfOk, OnErr};
ghost use Rattle.fm_code.specs.declared.ask.Ask.TheVariants as ask;
ghost use Rattle.fm_code.specs.declared.body.Body as declared_body;
ghost use Rattle.fm_code.specs.Passing.{back_words};
ghost use Rattle.fm_code.specs.Statements.{with_words};
ghost use Rattle.fm_machine_calls.specs.declared.looking.Look.TheVariants.{Asks};
ghost use Rattle.fm_chan.specs.Bodies.{chans_of};
ghost use Rattle.fm_chan.specs.Woken.{WakesAll};
ghost use Rattle.fm_net.specs.Machine.{Place};
ghost use Rattle.fm_proc_language.specs.Processes.{CodeProc, emptied, given_back, joining_words, kid_back};
ghost use Rattle.fm_proc_language.specs.Slots as bodies;
ghost use Rattle.fm_proc_slots.specs.Helds.{held};
ghost use Rattle.fm_proc_slots.specs.Joins.{GivesSo, HasRoomFor, LeavesRoomFor, joined};
ghost use Rattle.fm_proc_events.specs.Phases.{kid_of, proc_of};
ghost use Rattle.fm_procs.specs.Lefts.{left_by, left_of};
ghost use Rattle.fm_proc_events.specs.Told.{is_joining, look_of};
ghost use Rattle.fm_proc_events.specs.Performs.{Joins};
ghost use Rattle.fm_procs.specs.Gains.{alone, first_kid, gained, mine_of, other_kids};
ghost use Rattle.fm_procs.specs.Joinings.{HasJoined, HasRoomToJoin};
ghost use Rattle.fm_procs.specs.Rooms.{body_room, left_room};

use crate::dropping::drop_body;
use crate::measuring::{joining_words, room_with};
use fm_base::{NoMemory, Seq};
use fm_chan::{Channels, Port};
use fm_code::{Back, Body, Rare};
use fm_proc_events::{Kid, Phase, Process, set_address, shed};
use fm_proc_slots::{Child, Gains, Slots, give_back};
use std::alloc::Global;
use std::collections::VecDeque;
use std::mem::replace;

/// What a child leaves to its parent.
#[derive(Drop)]
pub struct Left {
    /// Its body, if it was there.
    pub body: Option<Body>,
    /// The ports of its words.
    pub slots: Slots,
}

/// Takes what a child leaves to its parent. Takes no memory.
pub fn release(alloc: Global, process: &mut Process) -> Left
    ensures left { left_of result ≡ left_by (proc_of process.old) }
    ensures process { proc_of process.new ≡ emptied (proc_of process.old) }
{
    let body = replace(&mut process.body, None);
    let slots = replace(&mut process.slots, Slots::new(alloc));
    Left { body, slots }
}

/// A child of this unit gives back.
#[tactic(auto, using(crate::proofs::Joinings::room_stays))]
fn give_back_if(gains: &mut Gains, child: &mut Child, same: bool, backs: &[Back])
    requires room { HasRoomFor gains.old (back_words backs.now) }
    ensures given { GivesSo (given_back same (joined gains.old child.old) backs.now) gains.new child.new }
    ensures room { LeavesRoomFor (back_words backs.now) gains.old gains.new }
{
    if same {
        give_back(gains, child, backs);
    }
}

/// A child that was there gives back, and then all that it still has is let go.
fn take_body(alloc: Global, gains: &mut Gains, body: Body, slots: Slots, unit: u32, backs: &[Back])
    requires room { HasRoomFor gains.old (back_words backs.now + body_room body) }
    ensures back { mine_of (kid_back (gained gains.old) (record { unit = unit; backs = backs.now }) slots (Some body))
        ≡ mine_of (gained gains.new) }
    ensures room { LeavesRoomFor (back_words backs.now + body_room body) gains.old gains.new }
{
    let mut body = body;
    let words = replace(&mut body.frame.words, Seq::new(alloc));
    let mut child = Child { words, slots };
    give_back_if(gains, &mut child, body.frame.unit == unit, backs);
    let Child { words, slots } = child;
    body.frame.words = words;
    drop_body(body, slots, &mut gains.drops);
}

/// What a child left comes to its parent.
fn take_left(alloc: Global, gains: &mut Gains, left: Left, unit: u32, backs: &[Back])
    requires room { HasRoomFor gains.old (back_words backs.now + left_room left.body) }
    ensures back { mine_of
        (kid_back (gained gains.old) (record { unit = unit; backs = backs.now }) left.slots left.body)
        ≡ mine_of (gained gains.new) }
    ensures room { LeavesRoomFor (back_words backs.now + left_room left.body) gains.old gains.new }
{
    let Left { body, slots } = left;
    match body {
        Some(body) => take_body(alloc, gains, body, slots, unit, backs),
        None => {}
    }
}

/// Words that come from a row, with room for so many more. After want of memory they are where they were.
fn open_words(alloc: Global, words: &mut Seq<i64>, room: usize) -> Result<Vec<i64>, NoMemory>
    ensures words { IfOk result (λ own. own.items ≡ words.old) }
    ensures room { IfOk result (λ own. vec_len own + room ≤ vec_capacity own) }
    ensures stays { OnErr result (words.new ≡ words.old) }
{
    let mut own = words.take(alloc).into_vec();
    match own.reserve(room) {
        Ok(()) => Ok(own),
        Err(_) => {
            *words = Seq::from_vec(own);
            Err(NoMemory)
        }
    }
}

/// What a parent has, with room for so much. After want of memory it is where it was.
fn open_gains(
    alloc: Global,
    words: &mut Seq<i64>,
    slots: &mut Slots,
    room: usize,
) -> Result<Gains, NoMemory>
    ensures gains { IfOk result (λ g. gained g ≡ alone (held words.old slots.old) []) }
    ensures room { IfOk result (λ g. HasRoomFor g room) }
    ensures stays { OnErr result ((words.new ≡ words.old) × (slots.new ≡ slots.old)) }
{
    let ports = room.checked_mul(2).ok_or(NoMemory)?;
    let drops = Vec::with_capacity(alloc, room)?;
    let mine = open_words(alloc, words, room)?;
    match slots.open(alloc, ports) {
        Ok(slots) => Ok(Gains {
            words: mine,
            slots,
            drops,
        }),
        Err(NoMemory) => {
            *words = Seq::from_vec(mine);
            Err(NoMemory)
        }
    }
}

/// The memory of a join: what the parent has, with room for all that comes, and the cost.
#[derive(Drop)]
struct Opened {
    gains: Gains,
    cost: u64,
}

/// Takes all memory that a join needs, of which the children still have so much at most. After want of memory the
/// parent is as it was.
fn open_body(
    alloc: Global,
    body: &mut Body,
    slots: &mut Slots,
    kids: &[Kid],
    room: usize,
) -> Result<Opened, NoMemory>
    ensures gains { IfOk result (λ o. gained o.gains ≡ alone (held body.old.frame.words slots.old) []) }
    ensures room { IfOk result (λ o. HasRoomFor o.gains (joining_words (map kid_of kids.now) + room)) }
    ensures cost { IfOk result (λ o. o.cost ≡ 1 + joining_words (map kid_of kids.now)) }
    ensures body { body.new ≡ record body.old { frame = record body.old.frame { words = body.new.frame.words } } }
    ensures stays { OnErr result ((body.new ≡ body.old) × (slots.new ≡ slots.old)) }
{
    let backs = joining_words(kids)?;
    let cost = backs.checked_add(1).ok_or(NoMemory)?;
    let room = room_with(backs, room)?;
    let gains = open_gains(alloc, &mut body.frame.words, slots, room)?;
    Ok(Opened { gains, cost })
}

/// A join under way: what the parent has, the children that it hasn't joined yet, where it goes on, and the cost.
/// Contracts say which children a process has joined (`HasJoined`).
#[derive(Drop)]
pub struct OpenJoin {
    gains: Gains,
    kids: VecDeque<Kid>,
    next: u32,
    cost: u64,
}

/// All children of the process's block have ended, and it begins to join them, with room for so many ports that they
/// still have. The process runs then, and its words and ports are with the join. After want of memory it is as it was.
pub fn open_join(
    alloc: Global,
    process: &mut Process,
    next: u32,
    room: usize,
) -> Result<OpenJoin, NoMemory>
    requires look { look_of (proc_of process.old) ≡ Asks (ask.Join next) }
    requires joins { is_joining (proc_of process.old) ≡ true }
    ensures joined { IfOk result (λ j. HasJoined (proc_of process.old) [] (proc_of process.new) j) }
    ensures room { IfOk result (λ j. HasRoomToJoin j room) }
    ensures stays { OnErr result (proc_of process.new ≡ proc_of process.old) }
{
    let Some(body) = &mut process.body else {
        unreachable!()
    };
    let Phase::Joining { block: _, kids } = &process.phase else {
        unreachable!()
    };
    let Opened { gains, cost } = open_body(alloc, body, &mut process.slots, kids.as_slice(), room)?;
    let Phase::Joining { block: _, kids } = replace(&mut process.phase, Phase::Running) else {
        unreachable!()
    };
    let kids = VecDeque::from_vec(kids.into_vec());
    Ok(OpenJoin {
        gains,
        kids,
        next,
        cost,
    })
}

/// What is to be joined next; a child of which nothing is known gives nothing back.
fn next_kid(alloc: Global, kids: &mut VecDeque<Kid>) -> Kid
    ensures kid { kid_of result ≡ first_kid (map kid_of kids.old.items) }
    ensures rest { map kid_of kids.new.items ≡ other_kids (map kid_of kids.old.items) }
{
    match kids.pop_front() {
        Some(kid) => kid,
        None => Kid {
            unit: 0,
            backs: Rare::new(alloc),
        },
    }
}

/// The words come to the frame, which goes on at a statement.
fn put_words(body: &mut Option<Body>, words: Vec<i64>, next: u32)
    ensures { body.new ≡ option_map (λ (b : declared_body.Body). with_words b next words.items) body.old }
{
    match body {
        Some(body) => {
            body.frame.words = Seq::from_vec(words);
            set_address(body, next);
        }
        None => {}
    }
}

impl OpenJoin {
    /// What the next child left, in the order of the starts, comes to its parent. Takes no memory.
    pub fn take(&mut self, alloc: Global, left: Left)
        requires room { HasRoomToJoin self.old (left_room left.body) }
        ensures joined { (y z : CodeProc) (lefts : List (Option declared_body.Body × bodies.Slots))
            → HasJoined y lefts z self.old → HasJoined y (lefts ++ left_of left ∷ []) z self.new }
        ensures room { (ports : ℕ) → HasRoomToJoin self.old (left_room left.body + ports)
            → HasRoomToJoin self.new ports }
    {
        let kid = next_kid(alloc, &mut self.kids);
        take_left(alloc, &mut self.gains, left, kid.unit, kid.backs.as_slice());
    }

    /// All children have been joined: the process goes on behind its block with what it has, and what was let go is
    /// discarded. The cost. Takes no memory.
    pub fn close(self, process: &mut Process, channels: &mut Channels) -> u64
        ensures joins { (y : CodeProc) (children : List CodeProc)
            → HasJoined y (map left_by children) (proc_of process.old) self
            → (p : Place)
            → Joins p y children (chans_of channels.old) (proc_of process.new) (chans_of channels.new) result }
        ensures waking { WakesAll channels.old channels.new }
    {
        let OpenJoin {
            gains,
            kids: _,
            next,
            cost,
        } = self;
        let Gains {
            words,
            slots,
            drops,
        } = gains;
        put_words(&mut process.body, words, next);
        process.slots = Slots::from_open(slots);
        shed(channels, drops);
        cost
    }
}
