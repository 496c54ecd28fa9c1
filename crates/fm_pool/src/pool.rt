//! The pool.

ghost use Rattle.std.specs.Prelude.{◌≡◌, ◌<◌, IfOk};
ghost use Rattle.std.specs.List.{range_with_len};

use crate::room::Room;
use fm_base::NoMemory;
use fm_workers::{Gate, SharedTable};
use std::alloc::Global;
use std::sync::Wait;
use std::thread;
use std::thread::Threads;

/// Plays a table by threads.
///
/// A method of a trait can't promise this for every gate and every table, since what it lends to threads has to be of
/// known types. So the crate of a table says for its own: `impl<R> Workers<Table> for Pool<Plain, R>`, whose `drive` is
/// `play`.
#[derive(Drop)]
pub struct Pool<G, R: Threads + Wait + Sync> {
    /// Who computes a piece.
    pub gate: G,
    /// What starts threads.
    pub rt: R,
    /// What pieces, and the numbers of the workers, are kept in.
    pub alloc: Global,
}

impl<G, R: Threads + Wait + Sync> Pool<G, R> {
    /// Plays the table with at most so many workers, until it has ended or no worker goes on, and gives it back.
    pub fn play<T: SharedTable + Send + Drop>(&self, table: T, count: u32) -> T
    where
        G: Gate<T>,
        ensures idle { count ≡ 0 → result ≡ table }
    {
        if count == 0 {
            return table;
        }
        let Ok(mut workers) = numbers(self.alloc, count) else {
            return table;
        };
        shared(
            &self.rt,
            &self.gate,
            self.alloc,
            workers.as_mut_slice(),
            table,
            count as usize,
        )
    }
}

// The numbers of the workers.
fn numbers(alloc: Global, count: u32) -> Result<Vec<u32>, NoMemory>
    ensures { IfOk result (λ v. v.items ≡ range_with_len 0 count) }
{
    let mut numbers = Vec::with_capacity(alloc, count as usize)?;
    'workers: for number in 0..count {
        numbers.push(number)?;
    }
    Ok(numbers)
}

// Plays the table by so many threads, each a worker, or by one where no more can be started.
fn shared<T: SharedTable + Send + Drop, G: Gate<T>, R: Threads + Wait + Sync>(
    rt: &R,
    gate: &G,
    alloc: Global,
    workers: &mut [u32],
    table: T,
    count: usize,
) -> T
    requires { 0 < count }
{
    let room = Room::new(table);
    thread::for_each_mut(
        rt,
        workers,
        count,
        &|_, worker: &mut u32| work(rt, gate, alloc, &room, *worker),
    );
    room.into_table()
}

// What a worker does until it stops.
fn work<T: SharedTable, G: Gate<T>, R: Wait>(
    rt: &R,
    gate: &G,
    alloc: Global,
    room: &Room<T>,
    worker: u32,
) {
    let light = gate.is_plain();
    let mut next = room.next(rt, alloc, worker, light);
    'pieces: for _ in rt.forever() {
        let Some(piece) = next else {
            return;
        };
        let done = gate.run(alloc, worker, piece);
        next = room.exchange(rt, alloc, worker, light, done);
    }
}
