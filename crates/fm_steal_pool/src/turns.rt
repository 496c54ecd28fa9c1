//! What a worker does in its turns of the lock, and between them.

ghost use Rattle.std.specs.Prelude.{None};
ghost use Rattle.fm_pool.specs.Desks.{IsNextAt};
ghost use Rattle.fm_steal_pool.specs.Workers.{Hands, HandsOn, IsFilled, IsNextPiece, IsSameWorker, IsServed, IsTurn, hand_of};

use crate::crew::Worker;
use fm_pool::{Desk, Next, Room};
use fm_workers::{Gate, SharedTable};
use std::alloc::Global;
use std::sync::Wait;

// How many pieces a worker takes in one turn of the lock.
const MOST_AT_ONCE: u32 = 8;

// Takes pieces into the worker's lane, until the desk gives out no other one, or the lane refuses one, which comes
// back. Where `light` says so, the table makes those pieces by itself that aren't worth giving out.
fn fill<T: SharedTable>(
    alloc: Global,
    worker: &mut Worker<T::Piece>,
    desk: &mut Desk<T>,
    light: bool,
) -> Next<T::Piece>
    ensures filled { IsFilled (IsNextAt T.take_does T.turn_does T.phase_tells light worker.old.number)
        worker.old worker.new result desk.old desk.new }
    ensures hands { HandsOn worker.old worker.new None }
    ensures same { IsSameWorker worker.old worker.new }
{
    'pieces: for _taken in 0..MOST_AT_ONCE {
        match desk.next(alloc, worker.number, light) {
            Next::Runs(piece) => match worker.lane.put(piece) {
                Ok(_) => {}
                Err(refused) => return Next::Runs(refused),
            },
            Next::Goes => return Next::Goes,
            Next::Waits => return Next::Waits,
            Next::Stops => return Next::Stops,
        }
    }
    Next::Goes
}

// What a worker with an empty lane does next, by what it finds at the desk: it takes pieces of the table, and computes
// the first one; where the table has none ready, it steals.
fn found<T: SharedTable, R: Wait>(
    rt: &R,
    alloc: Global,
    worker: &mut Worker<T::Piece>,
    desk: &mut Desk<T>,
    light: bool,
) -> Next<T::Piece>
    ensures turn { IsTurn (IsNextAt T.take_does T.turn_does T.phase_tells light)
        worker.old worker.new result desk.old desk.new }
    ensures hands { Hands worker.old worker.new (hand_of result) }
    ensures same { IsSameWorker worker.old worker.new }
{
    match fill(alloc, worker, desk, light) {
        Next::Runs(refused) => Next::Runs(refused),
        Next::Goes => match worker.first() {
            Some(piece) => Next::Runs(piece),
            None => Next::Goes,
        },
        Next::Waits => match worker.reach(rt) {
            Some(piece) => Next::Runs(piece),
            None => Next::Waits,
        },
        Next::Stops => match worker.first() {
            Some(piece) => Next::Runs(piece),
            None => Next::Stops,
        },
    }
}

// The next piece, when there is one. None where the worker is to stop. A worker whose lane is empty steals while the
// desk is free for others; and at the desk it steals once more before it waits.
fn next<T: SharedTable, R: Wait>(
    rt: &R,
    alloc: Global,
    room: &Room<T>,
    worker: &mut Worker<T::Piece>,
    light: bool,
) -> Option<T::Piece>
    ensures next { IsNextPiece (IsNextAt T.take_does T.turn_does T.phase_tells light)
        worker.old worker.new result }
    ensures hands { Hands worker.old worker.new result }
{
    match worker.reach(rt) {
        Some(piece) => Some(piece),
        None => next_at(rt, alloc, room, worker, light),
    }
}

// The next piece for a worker with an empty lane, at the desk. Who leaves with a piece wakes one that waits, who may
// find another piece and wakes the next one then; who stops wakes all.
fn next_at<'b, T: SharedTable, R: Wait>(
    rt: &R,
    alloc: Global,
    room: &'b Room<T>,
    worker: &mut Worker<T::Piece>,
    light: bool,
) -> Option<T::Piece>
    ensures served { IsServed (IsNextAt T.take_does T.turn_does T.phase_tells light)
        worker.old worker.new result }
    ensures hands { Hands worker.old worker.new result }
{
    let mut desk = room.come_in(rt);
    'turns: for _ in rt.forever() {
        match found(rt, alloc, worker, &mut *desk, light) {
            Next::Runs(piece) => {
                drop(desk);
                room.changed.notify_one();
                return Some(piece);
            }
            Next::Goes => desk = room.let_in(rt, worker.number, desk),
            Next::Waits => desk = room.wait_for_change(rt, desk),
            Next::Stops => {
                drop(desk);
                room.changed.notify_all();
                return None;
            }
        }
    }
    unreachable!()
}

/// What a worker does until it stops.
pub fn work<T: SharedTable + Drop, G: Gate<T>, R: Wait>(
    rt: &R,
    gate: &G,
    alloc: Global,
    room: &Room<T>,
    worker: &mut Worker<T::Piece>,
) {
    let light = gate.is_plain();
    'pieces: for _ in rt.forever() {
        let Some(piece) = next(rt, alloc, room, worker, light) else {
            return;
        };
        if !room.bring(rt, alloc, gate.run(alloc, worker.number, piece)) {
            return;
        }
    }
}
