//! What a worker does in its turn.

ghost use Rattle.std.specs.Prelude.{◌≡◌, ⊤, false, IfOk, MatchResult, OnErr};
ghost use Rattle.fm_workers.specs.Histories.{HasGrown, HasPlayed};
ghost use Rattle.fm_pool.specs.Desks.{IsBrought, IsGoing, IsMade, IsNext, IsPassed, IsTaken};
ghost use Rattle.fm_pool.specs.declared.desk.Next.TheVariants.{Stops};

use fm_base::NoMemory;
use fm_hub::Held;
use fm_pool::Next;
use fm_workers::{Phase, SharedTable};
use std::alloc::Global;
use std::sync::atomic::{AtomicU64, Ordering};

/// What the worker does next. It stops where the table has ended, where no piece is ready and none is out with a
/// worker, and where it finds no memory; and it waits only where a piece is out with another one. `working` counts
/// those that are out. Nothing is played but what the table makes by itself, which it is asked for where `light` says
/// so.
pub fn taken<T: SharedTable>(
    alloc: Global,
    held: &mut Held<T>,
    working: &AtomicU64,
    worker: u32,
    light: bool,
) -> Next<T::Piece>
    ensures place { held.new.place ≡ held.old.place }
    ensures next { IsNext T.take_does T.turn_does T.recall_does ⊤ light worker T.phase_tells
        result held.old.table held.new.table }
    ensures history { IsPassed result (T.history_of held.old.table) (T.history_of held.new.table) }
{
    match held.phase() {
        Phase::Going => taken_going(alloc, held, working, worker, light),
        Phase::Ended => Next::Stops,
        Phase::Spent => Next::Stops,
    }
}

// What the worker does next where the table isn't over.
fn taken_going<T: SharedTable>(
    alloc: Global,
    held: &mut Held<T>,
    working: &AtomicU64,
    worker: u32,
    light: bool,
) -> Next<T::Piece>
    ensures place { held.new.place ≡ held.old.place }
    ensures going { IsGoing T.take_does T.turn_does T.recall_does ⊤ light worker
        result held.old.table held.new.table }
    ensures history { IsPassed result (T.history_of held.old.table) (T.history_of held.new.table) }
{
    match made(alloc, held, worker, light) {
        Ok(true) => Next::Goes,
        Ok(false) => taken_out(alloc, held, working, worker),
        Err(NoMemory) => stopped(held),
    }
}

// Has the table make a piece by itself, if it is to be asked. False where it made none.
#[tactic(auto, using(fm_workers::proofs::HistoryLaws::plays_nothing))]
fn made<T: SharedTable>(
    alloc: Global,
    held: &mut Held<T>,
    worker: u32,
    light: bool,
) -> Result<bool, NoMemory>
    ensures place { held.new.place ≡ held.old.place }
    ensures made { IsMade T.turn_does light worker result held.old.table held.new.table }
    ensures grown { IfOk result (λ _. HasGrown (T.history_of held.old.table) (T.history_of held.new.table)) }
    ensures none { IfOk result (λ r. r ≡ false → T.history_of held.new.table ≡ T.history_of held.old.table) }
    ensures unchanged { OnErr result (T.history_of held.new.table ≡ T.history_of held.old.table) }
{
    if light {
        held.turn_light(alloc, worker)
    } else {
        Ok(false)
    }
}

// What the worker does next where the table makes no piece by itself.
fn taken_out<T: SharedTable>(
    alloc: Global,
    held: &mut Held<T>,
    working: &AtomicU64,
    worker: u32,
) -> Next<T::Piece>
    ensures place { held.new.place ≡ held.old.place }
    ensures taken { IsTaken T.take_does T.recall_does ⊤ worker result held.old.table held.new.table }
    ensures history { T.history_of held.new.table ≡ T.history_of held.old.table }
    ensures passed { IsPassed result (T.history_of held.old.table) (T.history_of held.new.table) }
{
    match held.take(alloc, worker) {
        Ok(Some(piece)) => {
            working.fetch_add(1, Ordering::SeqCst);
            Next::Runs(piece)
        }
        Ok(None) => {
            if working.load(Ordering::SeqCst) == 0 {
                Next::Stops
            } else {
                Next::Waits
            }
        }
        Err(NoMemory) => stopped(held),
    }
}

// There is no memory: all pieces that are out are made ready again, and the worker stops.
fn stopped<T: SharedTable>(held: &mut Held<T>) -> Next<T::Piece>
    ensures place { held.new.place ≡ held.old.place }
    ensures recalled { T.recall_does held.old.table held.new.table }
    ensures history { T.history_of held.new.table ≡ T.history_of held.old.table }
    ensures stops { result ≡ Stops }
{
    held.recall();
    Next::Stops
}

/// Gives what a piece came to, of which the table plays one entry of its process or nothing. Where there is no memory
/// for it, or was none to compute it, all pieces that are out are made ready again, and the answer is false.
pub fn given<T: SharedTable>(
    alloc: Global,
    held: &mut Held<T>,
    working: &AtomicU64,
    done: Result<T::Done, NoMemory>,
) -> bool
    ensures place { held.new.place ≡ held.old.place }
    ensures brought { MatchResult done
        (λ d. IsBrought T.give_does T.recall_does d result held.old.table held.new.table)
        (λ _. (result ≡ false) × T.recall_does held.old.table held.new.table) }
    ensures played { MatchResult done
        (λ d. HasPlayed (T.process_of d) (T.history_of held.old.table) (T.history_of held.new.table))
        (λ _. T.history_of held.new.table ≡ T.history_of held.old.table) }
{
    working.fetch_sub(1, Ordering::SeqCst);
    match done {
        Ok(done) => brought(alloc, held, done),
        Err(NoMemory) => {
            held.recall();
            false
        }
    }
}

// Gives what a piece came to. Where there is no memory for it, all pieces that are out are made ready again, and the
// answer is false.
#[tactic(auto, using(fm_workers::proofs::HistoryLaws::plays_at_most_once))]
fn brought<T: SharedTable>(alloc: Global, held: &mut Held<T>, done: T::Done) -> bool
    ensures place { held.new.place ≡ held.old.place }
    ensures brought { IsBrought T.give_does T.recall_does done result held.old.table held.new.table }
    ensures played { HasPlayed (T.process_of done) (T.history_of held.old.table) (T.history_of held.new.table) }
{
    match held.give(alloc, done) {
        Ok(_) => true,
        Err(_) => {
            held.recall();
            false
        }
    }
}
