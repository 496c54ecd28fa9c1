//! What stands under the lock of a pool, and what a worker does to it in one turn of the lock.

ghost use Rattle.std.specs.Prelude.{◌≡◌, ◌-◌, false, IfOk, MatchResult, OnErr};
ghost use Rattle.fm_workers.specs.Histories.{HasGrown, HasPlayed};
ghost use Rattle.fm_pool.specs.Desks.{IsBrought, IsCounted, IsGoing, IsMade, IsNextAt, IsPassed, IsSame, IsTaken};

use fm_base::NoMemory;
use fm_workers::{Phase, SharedTable};
use std::alloc::Global;

/// A table, and how many pieces are out with workers that still work.
#[derive(Drop)]
pub struct Desk<T> {
    pub table: T,
    pub working: u32,
}

/// What a worker does next.
pub enum Next<P> {
    /// It computes a piece.
    Runs(P),
    /// It goes on: the table made a piece by itself.
    Goes,
    /// It waits until something changes.
    Waits,
    /// It has nothing more to do.
    Stops,
}

impl<T: SharedTable> Desk<T> {
    /// What the worker does next. It stops where the table has ended, where no piece is ready and none is out with a
    /// worker, and where it finds no memory; and it waits only where a piece is out with another one. Nothing is played
    /// but what the table makes by itself, which it is asked for where `light` says so.
    pub fn next(&mut self, alloc: Global, worker: u32, light: bool) -> Next<T::Piece>
        ensures next { IsNextAt T.take_does T.turn_does T.phase_tells light worker result self.old self.new }
        ensures history { IsPassed result (T.history_of self.old.table) (T.history_of self.new.table) }
        ensures counted { IsCounted result self.old.working self.new.working }
    {
        match self.table.phase() {
            Phase::Going => self.next_going(alloc, worker, light),
            Phase::Ended => Next::Stops,
            Phase::Spent => Next::Stops,
        }
    }

    // What the worker does next where the table isn't over.
    fn next_going(&mut self, alloc: Global, worker: u32, light: bool) -> Next<T::Piece>
        ensures going { IsGoing T.take_does T.turn_does IsSame (self.old.working ≡ 0) light worker
            result self.old.table self.new.table }
        ensures history { IsPassed result (T.history_of self.old.table) (T.history_of self.new.table) }
        ensures counted { IsCounted result self.old.working self.new.working }
    {
        match made(alloc, &mut self.table, worker, light) {
            Ok(true) => Next::Goes,
            Ok(false) => self.next_out(alloc, worker),
            Err(NoMemory) => Next::Stops,
        }
    }

    // What the worker does next where the table makes no piece by itself.
    fn next_out(&mut self, alloc: Global, worker: u32) -> Next<T::Piece>
        ensures taken { IsTaken T.take_does IsSame (self.old.working ≡ 0) worker
            result self.old.table self.new.table }
        ensures history { T.history_of self.new.table ≡ T.history_of self.old.table }
        ensures passed { IsPassed result (T.history_of self.old.table) (T.history_of self.new.table) }
        ensures counted { IsCounted result self.old.working self.new.working }
    {
        match self.table.take(alloc, worker) {
            Ok(Some(piece)) => {
                self.working = self.working.saturating_add(1);
                Next::Runs(piece)
            }
            Ok(None) => {
                if self.working == 0 {
                    Next::Stops
                } else {
                    Next::Waits
                }
            }
            Err(NoMemory) => Next::Stops,
        }
    }

    /// Gives what a piece came to, or leaves the piece where there was no memory to compute it. False where the worker
    /// is to stop.
    pub fn bring(&mut self, alloc: Global, done: Result<T::Done, NoMemory>) -> bool
        ensures brought { MatchResult done
            (λ d. IsBrought T.give_does IsSame d result self.old.table self.new.table) (λ _. result ≡ false) }
        ensures played { MatchResult done
            (λ d. HasPlayed (T.process_of d) (T.history_of self.old.table) (T.history_of self.new.table))
            (λ _. self.new.table ≡ self.old.table) }
        ensures counted { self.new.working ≡ self.old.working - 1 }
    {
        match done {
            Ok(done) => self.give(alloc, done),
            Err(NoMemory) => {
                self.leave();
                false
            }
        }
    }

    /// Gives what a piece came to, of which the table plays one entry of its process or nothing. False where there is
    /// no memory for it.
    pub fn give(&mut self, alloc: Global, done: T::Done) -> bool
        ensures brought { IsBrought T.give_does IsSame done result self.old.table self.new.table }
        ensures played { HasPlayed (T.process_of done) (T.history_of self.old.table) (T.history_of self.new.table) }
        ensures counted { self.new.working ≡ self.old.working - 1 }
    {
        self.leave();
        given(alloc, &mut self.table, done)
    }

    /// The worker leaves its piece, which `recall` makes ready again.
    pub fn leave(&mut self)
        ensures same { self.new.table ≡ self.old.table }
        ensures counted { self.new.working ≡ self.old.working - 1 }
    {
        self.working = self.working.saturating_sub(1);
    }
}

// Has the table make a piece by itself, if it is to be asked. False where it made none.
#[tactic(auto, using(fm_workers::proofs::HistoryLaws::plays_nothing))]
fn made<T: SharedTable>(
    alloc: Global,
    table: &mut T,
    worker: u32,
    light: bool,
) -> Result<bool, NoMemory>
    ensures made { IsMade T.turn_does light worker result table.old table.new }
    ensures grown { IfOk result (λ _. HasGrown (T.history_of table.old) (T.history_of table.new)) }
    ensures none { IfOk result (λ r. r ≡ false → T.history_of table.new ≡ T.history_of table.old) }
    ensures unchanged { OnErr result (T.history_of table.new ≡ T.history_of table.old) }
{
    if light {
        table.turn_light(alloc, worker)
    } else {
        Ok(false)
    }
}

// Gives what a piece came to.
#[tactic(auto, using(fm_workers::proofs::HistoryLaws::plays_at_most_once))]
fn given<T: SharedTable>(alloc: Global, table: &mut T, done: T::Done) -> bool
    ensures brought { IsBrought T.give_does IsSame done result table.old table.new }
    ensures played { HasPlayed (T.process_of done) (T.history_of table.old) (T.history_of table.new) }
{
    match table.give(alloc, done) {
        Ok(_) => true,
        Err(_) => false,
    }
}
