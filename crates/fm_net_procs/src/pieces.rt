//! Pieces of a run: several steps of one process.

ghost use Rattle.std.specs.Prelude.{◌≡◌, ◌≤◌, ◌+◌, ◌++◌, true, is_some, Some, None, IfOk, OnOk};
ghost use Rattle.std.specs.FinMap.{get};
ghost use Rattle.fm_chan.specs.Woken.{WakesAll};
ghost use Rattle.fm_net.specs.Language.{language_step};
ghost use Rattle.fm_net.specs.Starts.{child_places};
ghost use Rattle.fm_net_procs.specs.Kept.{AreFamilies, AreTold, AreToldBut};
ghost use Rattle.fm_net_procs.specs.Pieces.{IsNewAlong, IsNewAt, IsPiece, Steps, StepsOrWaits};
ghost use Rattle.fm_net_procs.specs.Readings.{IsActor, actor_place, order_of, procs_of, state_of};

use crate::entries::Actor;
use crate::piece::{Advanced, Piece, Stop};
use crate::process::JoiningProc;
use crate::processes::Processes;
use crate::stepping::Stepped;
use fm_base::NoMemory;
use std::alloc::Global;

/// So many steps of a process, which start nobody, at this cost.
pub fn local_piece(steps: u32, cost: u64) -> Piece
    ensures { result ≡ record { steps = steps; cost = cost; block = 0; started = 0 } }
{
    Piece {
        steps,
        cost,
        block: 0,
        started: 0,
    }
}

fn with_step(steps: u32, cost: u64, stepped: Stepped) -> Result<Piece, NoMemory>
    ensures { IfOk result (λ r. r
        ≡ record { steps = steps + 1; cost = cost + stepped.cost; block = stepped.block; started = stepped.started }) }
{
    let steps = steps.checked_add(1).ok_or(NoMemory)?;
    let cost = cost.checked_add(stepped.cost).ok_or(NoMemory)?;
    Ok(Piece {
        steps,
        cost,
        block: stepped.block,
        started: stepped.started,
    })
}

impl<E: Drop, L: Drop, W: Drop, P: JoiningProc<Event = E, Look = L, Work = W>> Processes<P, L, W> {
    /// Makes the step of a process, which can step, and stands at this event, behind so many other steps.
    ///
    /// After want of memory these aren't to be used any more.
    pub fn event_piece(
        &mut self,
        alloc: Global,
        program: &P::Program,
        actor: &Actor,
        steps: u32,
        cost: u64,
        event: E,
    ) -> Result<Piece, NoMemory>
        requires families { AreFamilies (P.seen program.now) P.awaits self.old.entries }
        requires fits { P.Fits program.now self.old.work (state_of (P.seen program.now) self.old) }
        requires actor { IsActor self.old.entries actor.now }
        requires can { is_some
            (language_step (P.language program.now) (state_of (P.seen program.now) self.old) (actor_place actor.now))
            ≡ true }
        requires new { IsNewAt (P.language program.now) (state_of (P.seen program.now) self.old)
            (actor_place actor.now) }
        requires event { (y : P.Seen)
            → get (procs_of (P.seen program.now) self.old.entries) (actor_place actor.now) ≡ Some y
            → P.MeetsIt program.now y event }
        requires told { AreToldBut (P.seen program.now) (P.IsNext program.now) (actor_place actor.now)
            self.old.entries }
        ensures told { OnOk result (AreTold (P.seen program.now) (P.IsNext program.now) self.new.entries) }
        ensures families { OnOk result (AreFamilies (P.seen program.now) P.awaits self.new.entries) }
        ensures fits { OnOk result (P.Fits program.now self.new.work (state_of (P.seen program.now) self.new)) }
        ensures order { IfOk result (λ r. order_of self.new.entries
            ≡ order_of self.old.entries ++ child_places (actor_place actor.now) r.block 1 r.started) }
        ensures steps { IfOk result (λ r. Steps (P.language program.now) (state_of (P.seen program.now) self.old)
            (actor_place actor.now) steps cost r (state_of (P.seen program.now) self.new)) }
        ensures waking { OnOk result (WakesAll self.old.channels self.new.channels) }
    {
        let stepped = self.step(alloc, program, actor, event)?;
        self.entries.look(alloc, program, &mut self.work, actor)?;
        with_step(steps, cost, stepped)
    }

    /// Makes the step of a process, which stands at this event, behind so many other steps, or leaves it at the event.
    ///
    /// After want of memory these aren't to be used any more.
    pub fn event_or_wait(
        &mut self,
        alloc: Global,
        program: &P::Program,
        actor: &Actor,
        steps: u32,
        cost: u64,
        event: E,
    ) -> Result<Piece, NoMemory>
        requires families { AreFamilies (P.seen program.now) P.awaits self.old.entries }
        requires fits { P.Fits program.now self.old.work (state_of (P.seen program.now) self.old) }
        requires actor { IsActor self.old.entries actor.now }
        requires new { IsNewAt (P.language program.now) (state_of (P.seen program.now) self.old)
            (actor_place actor.now) }
        requires event { (y : P.Seen)
            → get (procs_of (P.seen program.now) self.old.entries) (actor_place actor.now) ≡ Some y
            → P.MeetsIt program.now y event }
        requires told { AreToldBut (P.seen program.now) (P.IsNext program.now) (actor_place actor.now)
            self.old.entries }
        ensures told { OnOk result (AreTold (P.seen program.now) (P.IsNext program.now) self.new.entries) }
        ensures families { OnOk result (AreFamilies (P.seen program.now) P.awaits self.new.entries) }
        ensures fits { OnOk result (P.Fits program.now self.new.work (state_of (P.seen program.now) self.new)) }
        ensures order { IfOk result (λ r. order_of self.new.entries
            ≡ order_of self.old.entries ++ child_places (actor_place actor.now) r.block 1 r.started) }
        ensures steps { IfOk result (λ r. StepsOrWaits (P.language program.now) (state_of (P.seen program.now) self.old)
            (actor_place actor.now) steps cost r (state_of (P.seen program.now) self.new)) }
        ensures waking { OnOk result (WakesAll self.old.channels self.new.channels) }
    {
        if self.is_able(actor.number, &event)? {
            return self.event_piece(alloc, program, actor, steps, cost, event);
        }
        self.entries.keep_next(actor, P::waiting(event));
        Ok(local_piece(steps, cost))
    }

    // Makes a piece of a process, which can step, and doesn't stand at an event: steps of its own, and then its event,
    // if there is room for it and it can do it.
    fn running_piece(
        &mut self,
        alloc: Global,
        program: &P::Program,
        actor: &Actor,
        slice: u32,
        spare: bool,
    ) -> Result<Piece, NoMemory>
        requires some { 1 ≤ slice }
        requires families { AreFamilies (P.seen program.now) P.awaits self.old.entries }
        requires fits { P.Fits program.now self.old.work (state_of (P.seen program.now) self.old) }
        requires actor { IsActor self.old.entries actor.now }
        requires can { is_some
            (language_step (P.language program.now) (state_of (P.seen program.now) self.old) (actor_place actor.now))
            ≡ true }
        requires new { IsNewAlong (P.language program.now) (state_of (P.seen program.now) self.old)
            (actor_place actor.now) }
        requires goes { (y : P.Seen)
            → get (procs_of (P.seen program.now) self.old.entries) (actor_place actor.now) ≡ Some y
            → (l : L) × P.IsNext program.now y l × (P.event_in l ≡ None) }
        requires told { AreToldBut (P.seen program.now) (P.IsNext program.now) (actor_place actor.now)
            self.old.entries }
        ensures told { OnOk result (AreTold (P.seen program.now) (P.IsNext program.now) self.new.entries) }
        ensures families { OnOk result (AreFamilies (P.seen program.now) P.awaits self.new.entries) }
        ensures fits { OnOk result (P.Fits program.now self.new.work (state_of (P.seen program.now) self.new)) }
        ensures order { IfOk result (λ r. order_of self.new.entries
            ≡ order_of self.old.entries ++ child_places (actor_place actor.now) r.block 1 r.started) }
        ensures piece { IfOk result (λ r. IsPiece (P.language program.now) (P.is_local program.now) slice spare
            (state_of (P.seen program.now) self.old) (actor_place actor.now) r
            (state_of (P.seen program.now) self.new)) }
        ensures waking { OnOk result (WakesAll self.old.channels self.new.channels) }
    {
        let Advanced { stop, steps, cost } = self.advance_one(alloc, program, actor, slice, spare)?;
        match stop {
            Stop::Pauses(next) => {
                self.entries.keep_next(actor, next);
                Ok(local_piece(steps, cost))
            }
            Stop::Meets(event) => self.event_or_wait(alloc, program, actor, steps, cost, event),
        }
    }

    /// Makes a piece of a process, which can step: steps of its own, as many as `slice` at most, and then, where there
    /// is room for one more step, one that concerns others, if it comes to one that it can do. With a step to `spare`
    /// there is room for it behind a whole slice too.
    ///
    /// After want of memory these aren't to be used any more.
    pub fn make_piece(
        &mut self,
        alloc: Global,
        program: &P::Program,
        actor: &Actor,
        slice: u32,
        spare: bool,
    ) -> Result<Piece, NoMemory>
        requires some { 1 ≤ slice }
        requires told { AreTold (P.seen program.now) (P.IsNext program.now) self.old.entries }
        requires families { AreFamilies (P.seen program.now) P.awaits self.old.entries }
        requires fits { P.Fits program.now self.old.work (state_of (P.seen program.now) self.old) }
        requires actor { IsActor self.old.entries actor.now }
        requires can { is_some
            (language_step (P.language program.now) (state_of (P.seen program.now) self.old) (actor_place actor.now))
            ≡ true }
        requires new { IsNewAlong (P.language program.now) (state_of (P.seen program.now) self.old)
            (actor_place actor.now) }
        ensures told { OnOk result (AreTold (P.seen program.now) (P.IsNext program.now) self.new.entries) }
        ensures families { OnOk result (AreFamilies (P.seen program.now) P.awaits self.new.entries) }
        ensures fits { OnOk result (P.Fits program.now self.new.work (state_of (P.seen program.now) self.new)) }
        ensures order { IfOk result (λ r. order_of self.new.entries
            ≡ order_of self.old.entries ++ child_places (actor_place actor.now) r.block 1 r.started) }
        ensures piece { IfOk result (λ r. IsPiece (P.language program.now) (P.is_local program.now) slice spare
            (state_of (P.seen program.now) self.old) (actor_place actor.now) r
            (state_of (P.seen program.now) self.new)) }
        ensures waking { OnOk result (WakesAll self.old.channels self.new.channels) }
    {
        let next = self.entries.take_next(actor);
        match P::into_event(next) {
            Some(event) => self.event_piece(alloc, program, actor, 0, 0, event),
            None => self.running_piece(alloc, program, actor, slice, spare),
        }
    }
}
