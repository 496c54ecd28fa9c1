//! A desk under a lock, and what tells workers that something has changed.

ghost use Rattle.std.specs.Prelude.{◌≡◌, false, None, MatchResult};
ghost use Rattle.fm_pool.specs.Desks.{HasBrought, IsExchanged, IsNextAt, IsServed};

use crate::desk::{Desk, Next};
use fm_base::NoMemory;
use fm_workers::SharedTable;
use std::alloc::Global;
use std::hint::spin_loop;
use std::sync::atomic::{AtomicU64, Ordering};
use std::sync::{Condvar, Mutex, MutexGuard, Wait};

// How often a worker that lets others in looks whether they are in, before it takes the lock again.
const MOST_LOOKS: u32 = 100;

/// Where the workers of a pool meet.
#[derive(Drop)]
pub struct Room<T> {
    pub desk: Mutex<Desk<T>>,
    pub changed: Condvar,
    /// How many workers wait for the lock to come in.
    pub coming: AtomicU64,
    /// How many workers wait for something to change, or for another one that makes pieces under the lock.
    pub idle: AtomicU64,
}

impl<T: SharedTable> Room<T> {
    /// Nobody has a piece.
    pub fn new(table: T) -> Room<T> {
        Room {
            desk: Mutex::new(Desk { table, working: 0 }),
            changed: Condvar::new(),
            coming: AtomicU64::new(0),
            idle: AtomicU64::new(0),
        }
    }

    /// The next piece, when there is one. None where the worker is to stop. Where `light` says so, the table makes
    /// those pieces by itself that aren't worth giving out.
    pub fn next<R: Wait>(&self, rt: &R, alloc: Global, worker: u32, light: bool) -> Option<T::Piece>
        ensures { IsServed (IsNextAt T.take_does T.turn_does T.phase_tells light worker) result }
    {
        let desk = self.come_in(rt);
        self.next_at(rt, alloc, worker, light, desk)
    }

    /// Gives what a piece came to, or leaves the piece where there was no memory to compute it; and the next piece, as
    /// above, in the same turn of the lock.
    pub fn exchange<R: Wait>(
        &self,
        rt: &R,
        alloc: Global,
        worker: u32,
        light: bool,
        done: Result<T::Done, NoMemory>,
    ) -> Option<T::Piece>
        ensures { MatchResult done
            (λ d. IsExchanged T.give_does (IsNextAt T.take_does T.turn_does T.phase_tells light worker) d result)
            (λ _. result ≡ None) }
    {
        let mut desk = self.come_in(rt);
        if desk.bring(alloc, done) {
            return self.next_at(rt, alloc, worker, light, desk);
        }
        drop(desk);
        self.changed.notify_all();
        None
    }

    /// Takes the lock, and is let in by who keeps it.
    pub fn come_in<'b, R: Wait>(&'b self, rt: &R) -> MutexGuard<'b, Desk<T>> {
        self.coming.fetch_add(1, Ordering::SeqCst);
        let desk = self.desk.lock(rt);
        self.coming.fetch_sub(1, Ordering::SeqCst);
        desk
    }

    // The next piece for a worker who has the lock. It keeps the lock while the table makes pieces by itself, which
    // would only go from one processor to another; but it lets in who begins or brings what a piece came to. Who leaves
    // with a piece wakes one that waits, who may find another piece and wakes the next one then; who stops wakes all.
    fn next_at<'b, R: Wait>(
        &'b self,
        rt: &R,
        alloc: Global,
        worker: u32,
        light: bool,
        held: MutexGuard<'b, Desk<T>>,
    ) -> Option<T::Piece>
        ensures { IsServed (IsNextAt T.take_does T.turn_does T.phase_tells light worker) result }
    {
        let mut desk = held;
        'turns: for _ in rt.forever() {
            match desk.next(alloc, worker, light) {
                Next::Runs(piece) => {
                    drop(desk);
                    self.changed.notify_one();
                    return Some(piece);
                }
                Next::Goes => desk = self.let_in(rt, worker, desk),
                Next::Waits => desk = self.wait_for_change(rt, desk),
                Next::Stops => {
                    drop(desk);
                    self.changed.notify_all();
                    return None;
                }
            }
        }
        unreachable!()
    }

    /// Leaves the lock until something changes, and takes it again.
    pub fn wait_for_change<'b, R: Wait>(
        &'b self,
        rt: &R,
        held: MutexGuard<'b, Desk<T>>,
    ) -> MutexGuard<'b, Desk<T>> {
        self.idle.fetch_add(1, Ordering::SeqCst);
        let desk = self.changed.wait(rt, held);
        self.idle.fetch_sub(1, Ordering::SeqCst);
        desk
    }

    /// Leaves the lock for a moment to those that come in, if there are any; and where the table goes on with a process
    /// for this worker while another one is ready, also to one that is idle, which it wakes.
    pub fn let_in<'b, R: Wait>(
        &'b self,
        rt: &R,
        worker: u32,
        held: MutexGuard<'b, Desk<T>>,
    ) -> MutexGuard<'b, Desk<T>> {
        let comes = self.coming.load(Ordering::SeqCst) != 0;
        let serves = self.idle.load(Ordering::SeqCst) != 0 && held.table.offers(worker);
        if !comes && !serves {
            return held;
        }
        drop(held);
        if serves {
            self.changed.notify_one();
        }
        self.lock_again(rt)
    }

    // Takes the lock again as soon as those are in that come, or after some looks.
    fn lock_again<'b, R: Wait>(&'b self, rt: &R) -> MutexGuard<'b, Desk<T>> {
        self.idle.fetch_add(1, Ordering::SeqCst);
        'looks: for _ in 0..MOST_LOOKS {
            if self.coming.load(Ordering::SeqCst) == 0 {
                break;
            }
            spin_loop();
        }
        let desk = self.desk.lock(rt);
        self.idle.fetch_sub(1, Ordering::SeqCst);
        desk
    }

    /// Gives what a piece came to, or leaves the piece where there was no memory to compute it. False where the worker
    /// is to stop, which wakes all others; else it wakes one that waits.
    pub fn bring<R: Wait>(&self, rt: &R, alloc: Global, done: Result<T::Done, NoMemory>) -> bool
        ensures { MatchResult done (λ d. HasBrought T.give_does d result) (λ _. result ≡ false) }
    {
        let mut desk = self.come_in(rt);
        let given = desk.bring(alloc, done);
        drop(desk);
        if given {
            self.changed.notify_one();
        } else {
            self.changed.notify_all();
        }
        given
    }

    /// The table, when all workers have stopped.
    pub fn into_table(self) -> T {
        let Room {
            desk,
            changed: _,
            coming: _,
            idle: _,
        } = self;
        let Desk { table, working: _ } = desk.into_inner();
        table
    }
}
