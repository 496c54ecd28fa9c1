//! The pool.

ghost use Rattle.std.specs.Prelude.{◌≡◌, ◌<◌};

use crate::crew::{Worker, crew};
use crate::turns::work;
use fm_pool::Room;
use fm_workers::{Gate, SharedTable};
use std::alloc::Global;
use std::sync::Wait;
use std::thread;
use std::thread::Threads;

/// Plays a table by threads that steal pieces from each other. The crate of a table says that it is one of that table's
/// `Workers`, as with the pool of fm_pool.
#[derive(Drop)]
pub struct StealPool<G, R: Threads + Wait + Sync> {
    /// Who computes a piece.
    pub gate: G,
    /// What starts threads.
    pub rt: R,
    /// What lanes and pieces are made of.
    pub alloc: Global,
}

impl<G, R: Threads + Wait + Sync> StealPool<G, R> {
    /// Plays the table with at most so many workers, 64 at most, until it has ended or no worker goes on, and gives it
    /// back.
    pub fn play<T: SharedTable + Send + Drop>(&self, table: T, count: u32) -> T
    where
        G: Gate<T>,
        ensures idle { count ≡ 0 → result ≡ table }
    {
        if count == 0 || count > 64 {
            return table;
        }
        let Ok(mut workers) = crew(self.alloc, count) else {
            return table;
        };
        shared(
            &self.rt,
            &self.gate,
            self.alloc,
            workers.as_mut_slice(),
            table,
            count as usize,
        )
    }
}

// Plays the table by so many threads, each a worker, or by one where no more can be started.
fn shared<T: SharedTable + Send + Drop, G: Gate<T>, R: Threads + Wait + Sync>(
    rt: &R,
    gate: &G,
    alloc: Global,
    workers: &mut [Worker<T::Piece>],
    table: T,
    count: usize,
) -> T
    requires { 0 < count }
{
    let room = Room::new(table);
    thread::for_each_mut(
        rt,
        workers,
        count,
        &|_, worker: &mut Worker<T::Piece>| work(rt, gate, alloc, &room, worker),
    );
    room.into_table()
}
