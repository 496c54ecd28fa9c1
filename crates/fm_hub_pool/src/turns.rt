//! What a worker does: turns at the table, and pieces between them.

ghost use Rattle.std.specs.Prelude.{◌≡◌, ◌++◌, ⊤};
ghost use mathlib.Core.List.{IsPrefix};
ghost use Rattle.fm_hub.specs.Histories.{start_in};
ghost use Rattle.fm_hub.specs.Hubs.{IsAt, IsSeatOf, made_at, view_at, view_of};
ghost use Rattle.fm_pool.specs.Desks.{IsNext, IsServed};

use crate::desk::{given, taken};
use fm_hub::{Held, Hub, HubSeat};
use fm_pool::Next;
use fm_workers::{Gate, KeepsHistory, SharedTable};
use std::alloc::Global;
use std::sync::Wait;
use std::sync::atomic::AtomicU64;
use std::thread;

// How many pieces a table makes by itself before others get the turn.
const MOST_AT_ONCE: u32 = 64;

/// A worker.
#[derive(Drop)]
pub struct Worker<T> {
    /// Its number.
    pub number: u32,
    /// Its seat.
    pub seat: HubSeat<T>,
}

// Takes the turn as soon as a try finds it free.
fn turn<T: KeepsHistory + Drop, R: Wait>(rt: &R, hub: &Hub<T>, mut seat: HubSeat<T>) -> Held<T>
    requires { IsSeatOf hub.now seat }
    ensures at { IsAt hub.now result.place }
    ensures held { T.history_of result.table ≡ start_in (view_at result.place).held }
    ensures begun { IsPrefix (view_of seat).seen (T.history_of result.table) }
    ensures seen { (view_at result.place).seen ≡ (view_of seat).seen }
    ensures mine { (view_at result.place).mine ≡ (view_of seat).mine }
{
    'tries: for _ in rt.forever() {
        match hub.hold(seat) {
            Ok(held) => return held,
            Err((again, _)) => {
                thread::yield_now();
                seat = again;
            }
        }
    }
    unreachable!()
}

// Lets others have the turn, and takes it again: the seat has seen what it left, and what it made there is its own.
fn next_turn<T: KeepsHistory + Drop, R: Wait>(rt: &R, hub: &Hub<T>, held: Held<T>) -> Held<T>
    requires { IsAt hub.now held.place }
    ensures at { IsAt hub.now result.place }
    ensures begun { IsPrefix (T.history_of held.table) (T.history_of result.table) }
    ensures seen { (view_at result.place).seen ≡ T.history_of held.table }
    ensures mine { (view_at result.place).mine
        ≡ (view_at held.place).mine ++ made_at held.place (T.history_of held.table) }
{
    let seat = hub.release(held);
    thread::yield_now();
    turn(rt, hub, seat)
}

// The next piece, when there is one, and the seat that gave the turn back. None where the worker is to stop. Where
// `light` says so, the table makes those pieces by itself that aren't worth giving out.
fn next_piece<T: SharedTable + Drop, R: Wait>(
    rt: &R,
    alloc: Global,
    hub: &Hub<T>,
    working: &AtomicU64,
    worker: u32,
    mut held: Held<T>,
    light: bool,
) -> (HubSeat<T>, Option<T::Piece>)
    requires { IsAt hub.now held.place }
    ensures seat { IsSeatOf hub.now result.0 }
    ensures served { IsServed (IsNext T.take_does T.turn_does T.recall_does ⊤ light worker T.phase_tells) result.1 }
{
    let mut made = 0u32;
    'turns: for _ in rt.forever() {
        match taken(alloc, &mut held, working, worker, light) {
            Next::Runs(piece) => return (hub.release(held), Some(piece)),
            Next::Goes => {
                made = made.saturating_add(1);
                if made >= MOST_AT_ONCE {
                    made = 0;
                    held = next_turn(rt, hub, held);
                }
            }
            Next::Waits => held = next_turn(rt, hub, held),
            Next::Stops => return (hub.release(held), None),
        }
    }
    unreachable!()
}

/// What a worker does until it stops.
pub fn work<T: SharedTable + Drop, G: Gate<T>, R: Wait>(
    rt: &R,
    gate: &G,
    alloc: Global,
    hub: &Hub<T>,
    working: &AtomicU64,
    worker: Worker<T>,
)
    requires { IsSeatOf hub.now worker.seat }
{
    let Worker { number, seat } = worker;
    let light = gate.is_plain();
    let mut held = turn(rt, hub, seat);
    'pieces: for _ in rt.forever() {
        let (seat, next) = next_piece(rt, alloc, hub, working, number, held, light);
        let Some(piece) = next else {
            return;
        };
        let done = gate.run(alloc, number, piece);
        held = turn(rt, hub, seat);
        if !given(alloc, &mut held, working, done) {
            hub.release(held);
            return;
        }
    }
    unreachable!()
}
