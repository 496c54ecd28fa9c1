//! One event of a process, with the children that it starts and those that it joins.

ghost use Rattle.std.specs.Prelude.{◌≡◌, ◌++◌, ◌≤◌, true, false, is_some, Some, None, map, IfOk, OnOk};
ghost use Rattle.std.specs.FinMap.{get, insert};
ghost use Rattle.fm_chan.specs.Bodies.{chans_of};
ghost use Rattle.fm_chan.specs.Woken.{WakesAll};
ghost use Rattle.fm_net.specs.Language.{language_step};
ghost use Rattle.fm_net.specs.Starts.{child_places, starts_at};
ghost use Rattle.fm_net_procs.specs.Kept.{AreFamilies, AreFamiliesBut, AreToldBut};
ghost use Rattle.fm_net_procs.specs.Pieces.{IsNewAt};
ghost use Rattle.fm_net_procs.specs.Readings.{IsActor, actor_place, order_of, procs_of, state_of};
ghost use Rattle.fm_net_procs.specs.Stepping.{Advances, StepsTo};

use crate::entries::Actor;
use crate::piece::{Advanced, Done};
use crate::process::JoiningProc;
use crate::processes::Processes;
use fm_base::NoMemory;
use std::alloc::Global;

/// What a step did, beside what it changed.
#[derive(Drop)]
pub(crate) struct Stepped {
    /// The number of the block that started, if one did.
    pub block: u32,
    /// How many children started.
    pub started: usize,
    /// The cost in turns.
    pub cost: u64,
}

impl<E: Drop, L: Drop, W: Drop, P: JoiningProc<Event = E, Look = L, Work = W>> Processes<P, L, W> {
    /// Steps of a process's own, as many as `slice` at most.
    #[inline(always)]
    pub(crate) fn advance_one(
        &mut self,
        alloc: Global,
        program: &P::Program,
        actor: &Actor,
        slice: u32,
        spare: bool,
    ) -> Result<Advanced<E, L>, NoMemory>
        requires some { 1 ≤ slice }
        requires families { AreFamilies (P.seen program.now) P.awaits self.old.entries }
        requires fits { P.Fits program.now self.old.work (state_of (P.seen program.now) self.old) }
        requires actor { IsActor self.old.entries actor.now }
        requires can { is_some
            (language_step (P.language program.now) (state_of (P.seen program.now) self.old) (actor_place actor.now))
            ≡ true }
        requires new { IsNewAt (P.language program.now) (state_of (P.seen program.now) self.old)
            (actor_place actor.now) }
        requires goes { (y : P.Seen)
            → get (procs_of (P.seen program.now) self.old.entries) (actor_place actor.now) ≡ Some y
            → (l : L) × P.IsNext program.now y l × (P.event_in l ≡ None) }
        ensures order { OnOk result (order_of self.new.entries ≡ order_of self.old.entries) }
        ensures families { OnOk result (AreFamilies (P.seen program.now) P.awaits self.new.entries) }
        ensures told { OnOk result (AreToldBut (P.seen program.now) (P.IsNext program.now) (actor_place actor.now)
            self.old.entries
            → AreToldBut (P.seen program.now) (P.IsNext program.now) (actor_place actor.now) self.new.entries) }
        ensures advances { IfOk result (λ a. (y : P.Seen)
            → get (procs_of (P.seen program.now) self.old.entries) (actor_place actor.now) ≡ Some y
            → (z : P.Seen)
            × (procs_of (P.seen program.now) self.new.entries
            ≡ insert (procs_of (P.seen program.now) self.old.entries) (actor_place actor.now) z)
            × Advances (P.language program.now) (P.is_local program.now) P.awaits (P.IsNext program.now)
            (P.MeetsIt program.now) (P.Fits program.now self.new.work) slice spare
            (state_of (P.seen program.now) self.old) (actor_place actor.now) y z a (chans_of self.new.channels)) }
        ensures waking { OnOk result (WakesAll self.old.channels self.new.channels) }
    {
        let channels = &mut self.channels;
        let work = &mut self.work;
        match self.entries.rows.get_mut(actor.number) {
            Some(entry) => entry
                .process
                .advance(alloc, program, channels, work, slice, spare),
            None => unreachable!(),
        }
    }

    // Does the event of a process, other than a join.
    #[inline(always)]
    fn perform_one(
        &mut self,
        alloc: Global,
        program: &P::Program,
        actor: &Actor,
        event: E,
    ) -> Result<Done<P>, NoMemory>
        requires fits { P.Fits program.now self.old.work (state_of (P.seen program.now) self.old) }
        requires actor { IsActor self.old.entries actor.now }
        requires can { is_some
            (language_step (P.language program.now) (state_of (P.seen program.now) self.old) (actor_place actor.now))
            ≡ true }
        requires new { IsNewAt (P.language program.now) (state_of (P.seen program.now) self.old)
            (actor_place actor.now) }
        requires event { (y : P.Seen)
            → get (procs_of (P.seen program.now) self.old.entries) (actor_place actor.now) ≡ Some y
            → P.MeetsIt program.now y event }
        requires alone { P.joins event ≡ false }
        ensures order { OnOk result (order_of self.new.entries ≡ order_of self.old.entries) }
        ensures told { OnOk result (AreToldBut (P.seen program.now) (P.IsNext program.now) (actor_place actor.now)
            self.old.entries
            → AreToldBut (P.seen program.now) (P.IsNext program.now) (actor_place actor.now) self.new.entries) }
        ensures families { OnOk result (AreFamiliesBut (P.seen program.now) P.awaits (actor_place actor.now)
            self.old.entries → AreFamiliesBut (P.seen program.now) P.awaits (actor_place actor.now) self.new.entries) }
        ensures performs { IfOk result (λ d. (y : P.Seen)
            → get (procs_of (P.seen program.now) self.old.entries) (actor_place actor.now) ≡ Some y
            → (z : P.Seen)
            × (procs_of (P.seen program.now) self.new.entries
            ≡ insert (procs_of (P.seen program.now) self.old.entries) (actor_place actor.now) z)
            × StepsTo (P.language program.now) P.awaits (P.Fits program.now self.new.work)
            (state_of (P.seen program.now) self.old) (actor_place actor.now) y z
            (map (P.seen program.now) d.children.items) (chans_of self.new.channels) d.cost) }
        ensures waking { OnOk result (WakesAll self.old.channels self.new.channels) }
    {
        let channels = &mut self.channels;
        let work = &mut self.work;
        match self.entries.rows.get_mut(actor.number) {
            Some(entry) => entry
                .process
                .perform(alloc, program, &actor.path, channels, work, event),
            None => unreachable!(),
        }
    }

    // Makes one step of a process, which joins a block.
    #[inline(never)]
    fn step_join(
        &mut self,
        alloc: Global,
        program: &P::Program,
        actor: &Actor,
        event: E,
    ) -> Result<Stepped, NoMemory>
        requires families { AreFamilies (P.seen program.now) P.awaits self.old.entries }
        requires fits { P.Fits program.now self.old.work (state_of (P.seen program.now) self.old) }
        requires actor { IsActor self.old.entries actor.now }
        requires can { is_some
            (language_step (P.language program.now) (state_of (P.seen program.now) self.old) (actor_place actor.now))
            ≡ true }
        requires event { (y : P.Seen)
            → get (procs_of (P.seen program.now) self.old.entries) (actor_place actor.now) ≡ Some y
            → P.MeetsIt program.now y event }
        requires joins { P.joins event ≡ true }
        ensures step { IfOk result (λ r. language_step (P.language program.now) (state_of (P.seen program.now) self.old)
            (actor_place actor.now) ≡ Some (state_of (P.seen program.now) self.new, r.cost)) }
        ensures starts { IfOk result (λ r. starts_at (P.language program.now) (state_of (P.seen program.now) self.old)
            (actor_place actor.now) ≡ child_places (actor_place actor.now) r.block 1 r.started) }
        ensures families { OnOk result (AreFamilies (P.seen program.now) P.awaits self.new.entries) }
        ensures fits { OnOk result (P.Fits program.now self.new.work (state_of (P.seen program.now) self.new)) }
        ensures order { IfOk result (λ r. order_of self.new.entries
            ≡ order_of self.old.entries ++ child_places (actor_place actor.now) r.block 1 r.started) }
        ensures told { OnOk result (AreToldBut (P.seen program.now) (P.IsNext program.now) (actor_place actor.now)
            self.old.entries
            → AreToldBut (P.seen program.now) (P.IsNext program.now) (actor_place actor.now) self.new.entries) }
        ensures waking { OnOk result (WakesAll self.old.channels self.new.channels) }
    {
        let entries = &mut self.entries;
        let channels = &mut self.channels;
        let work = &mut self.work;
        let cost = P::join(alloc, program, entries, channels, work, actor, event)?;
        Ok(Stepped {
            block: 0,
            started: 0,
            cost,
        })
    }

    // Makes one step of a process, which stands at this event, other than a join.
    #[inline(always)]
    fn step_alone(
        &mut self,
        alloc: Global,
        program: &P::Program,
        actor: &Actor,
        event: E,
    ) -> Result<Stepped, NoMemory>
        requires families { AreFamilies (P.seen program.now) P.awaits self.old.entries }
        requires fits { P.Fits program.now self.old.work (state_of (P.seen program.now) self.old) }
        requires actor { IsActor self.old.entries actor.now }
        requires can { is_some
            (language_step (P.language program.now) (state_of (P.seen program.now) self.old) (actor_place actor.now))
            ≡ true }
        requires new { IsNewAt (P.language program.now) (state_of (P.seen program.now) self.old)
            (actor_place actor.now) }
        requires event { (y : P.Seen)
            → get (procs_of (P.seen program.now) self.old.entries) (actor_place actor.now) ≡ Some y
            → P.MeetsIt program.now y event }
        requires alone { P.joins event ≡ false }
        ensures step { IfOk result (λ r. language_step (P.language program.now) (state_of (P.seen program.now) self.old)
            (actor_place actor.now) ≡ Some (state_of (P.seen program.now) self.new, r.cost)) }
        ensures starts { IfOk result (λ r. starts_at (P.language program.now) (state_of (P.seen program.now) self.old)
            (actor_place actor.now) ≡ child_places (actor_place actor.now) r.block 1 r.started) }
        ensures families { OnOk result (AreFamilies (P.seen program.now) P.awaits self.new.entries) }
        ensures fits { OnOk result (P.Fits program.now self.new.work (state_of (P.seen program.now) self.new)) }
        ensures order { IfOk result (λ r. order_of self.new.entries
            ≡ order_of self.old.entries ++ child_places (actor_place actor.now) r.block 1 r.started) }
        ensures told { OnOk result (AreToldBut (P.seen program.now) (P.IsNext program.now) (actor_place actor.now)
            self.old.entries
            → AreToldBut (P.seen program.now) (P.IsNext program.now) (actor_place actor.now) self.new.entries) }
        ensures waking { OnOk result (WakesAll self.old.channels self.new.channels) }
    {
        let block = self.entries.next_block(actor.number);
        let Done { children, cost } = self.perform_one(alloc, program, actor, event)?;
        let started = children.len();
        let work = &mut self.work;
        self.entries
            .start_all(alloc, program, work, actor, block, children)?;
        Ok(Stepped {
            block,
            started,
            cost,
        })
    }

    /// Makes one step of a process, which can step, and stands at this event. What it does next isn't told then.
    ///
    /// After want of memory these aren't to be used any more.
    #[inline(always)]
    pub(crate) fn step(
        &mut self,
        alloc: Global,
        program: &P::Program,
        actor: &Actor,
        event: E,
    ) -> Result<Stepped, NoMemory>
        requires families { AreFamilies (P.seen program.now) P.awaits self.old.entries }
        requires fits { P.Fits program.now self.old.work (state_of (P.seen program.now) self.old) }
        requires actor { IsActor self.old.entries actor.now }
        requires can { is_some
            (language_step (P.language program.now) (state_of (P.seen program.now) self.old) (actor_place actor.now))
            ≡ true }
        requires new { IsNewAt (P.language program.now) (state_of (P.seen program.now) self.old)
            (actor_place actor.now) }
        requires event { (y : P.Seen)
            → get (procs_of (P.seen program.now) self.old.entries) (actor_place actor.now) ≡ Some y
            → P.MeetsIt program.now y event }
        ensures step { IfOk result (λ r. language_step (P.language program.now) (state_of (P.seen program.now) self.old)
            (actor_place actor.now) ≡ Some (state_of (P.seen program.now) self.new, r.cost)) }
        ensures starts { IfOk result (λ r. starts_at (P.language program.now) (state_of (P.seen program.now) self.old)
            (actor_place actor.now) ≡ child_places (actor_place actor.now) r.block 1 r.started) }
        ensures families { OnOk result (AreFamilies (P.seen program.now) P.awaits self.new.entries) }
        ensures fits { OnOk result (P.Fits program.now self.new.work (state_of (P.seen program.now) self.new)) }
        ensures order { IfOk result (λ r. order_of self.new.entries
            ≡ order_of self.old.entries ++ child_places (actor_place actor.now) r.block 1 r.started) }
        ensures told { OnOk result (AreToldBut (P.seen program.now) (P.IsNext program.now) (actor_place actor.now)
            self.old.entries
            → AreToldBut (P.seen program.now) (P.IsNext program.now) (actor_place actor.now) self.new.entries) }
        ensures waking { OnOk result (WakesAll self.old.channels self.new.channels) }
    {
        if P::is_join(&event) {
            self.step_join(alloc, program, actor, event)
        } else {
            self.step_alone(alloc, program, actor, event)
        }
    }
}
