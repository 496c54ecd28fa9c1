//! Threads that play a run.

ghost use Rattle.std.specs.Thread.{IsSync};

use fm_steal_pool::StealPool;
use fm_table::Table;
use fm_workers::{Plain, Workers};
use std::sync::Wait;
use std::thread::Threads;

/// Threads that play a run, and steal pieces from each other.
#[derive(Drop)]
pub struct StealTeam<R: Threads + Wait + Sync> {
    /// The threads.
    pub pool: StealPool<Plain, R>,
}

impl<R: Threads + Wait + Sync> Workers<Table> for StealTeam<R> {
    ghost crosses = { IsSync R.row };

    fn drive(&self, table: Table, count: u32) -> Option<Table> {
        Some(self.pool.play(table, count))
    }
}
