//! The pool.

ghost use Rattle.std.specs.Prelude.{◌≡◌, All, map, IfOk, IfSome};
ghost use Rattle.std.specs.List.{range_with_len};
ghost use mathlib.Core.List.{IsPrefix};
ghost use Rattle.fm_hub.specs.Hubs.{IsSeatOf, view_of};

use crate::turns::{Worker, work};
use fm_base::NoMemory;
use fm_hub::{Hub, HubSeat};
use fm_workers::{Gate, SharedTable};
use std::alloc::Global;
use std::sync::Wait;
use std::sync::atomic::AtomicU64;
use std::thread;
use std::thread::Threads;

/// Plays a table by threads that take turns at it without a lock. The crate of a table says that it is one of that
/// table's `Workers`, as with the pool of fm_pool.
#[derive(Drop)]
pub struct HubPool<G, R: Threads + Wait + Sync> {
    /// Who computes a piece.
    pub gate: G,
    /// What starts threads.
    pub rt: R,
    /// What the hub, its seats and pieces are made of.
    pub alloc: Global,
}

impl<G, R: Threads + Wait + Sync> HubPool<G, R> {
    /// Plays the table with so many workers, until it has ended or no worker goes on, and gives it back. None comes
    /// where a seat still has the turn. What was played before stays.
    pub fn play<T: SharedTable + Send + Drop>(&self, table: T, count: u32) -> Option<T>
    where
        G: Gate<T>,
        ensures idle { count ≡ 0 → IfSome result (λ t. t ≡ table) }
        ensures grown { IfSome result (λ t. IsPrefix (T.history_of table) (T.history_of t)) }
    {
        if count == 0 {
            return Some(table);
        }
        let (hub, mut seat) = match Hub::new(self.alloc, table) {
            Ok(made) => made,
            Err((table, NoMemory)) => return Some(table),
        };
        if let Ok(workers) = seated(self.alloc, &hub, &mut seat, count) {
            shared(&self.rt, &self.gate, self.alloc, &hub, workers);
        }
        match hub.close(seat) {
            Ok(table) => Some(table),
            Err(_) => None,
        }
    }
}

// So many workers, each with a seat.
fn seated<T: SharedTable + Drop>(
    alloc: Global,
    hub: &Hub<T>,
    seat: &mut HubSeat<T>,
    count: u32,
) -> Result<Vec<Worker<T>>, NoMemory>
    requires { IsSeatOf hub.now seat.old }
    ensures seat { IsSeatOf hub.now seat.new × (view_of seat.new ≡ view_of seat.old) }
    ensures seats { IfOk result (λ v. All (λ w. IsSeatOf hub.now w.seat) v.items) }
    ensures numbers { IfOk result (λ v. map (λ w. w.number) v.items ≡ range_with_len 0 count) }
{
    let mut workers = Vec::with_capacity(alloc, count as usize)?;
    'workers: for number in 0..count {
        let own = hub.split(seat);
        workers.push(Worker { number, seat: own })?;
    }
    Ok(workers)
}

// Lets each worker work in a thread of its own, or one after another where no more can be started.
fn shared<T: SharedTable + Send + Drop, G: Gate<T>, R: Threads + Wait + Sync>(
    rt: &R,
    gate: &G,
    alloc: Global,
    hub: &Hub<T>,
    workers: Vec<Worker<T>>,
)
    requires { All (λ w. IsSeatOf hub.now w.seat) workers.items }
{
    let working = AtomicU64::new(0);
    let _ = thread::map_vec(
        rt,
        workers,
        &|worker: Worker<T>|
            requires { IsSeatOf hub.now worker.seat }
        { work(rt, gate, alloc, hub, &working, worker) },
    );
}
