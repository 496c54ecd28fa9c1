//! Threads that play a run.

ghost use Rattle.std.specs.Thread.{IsSync};

use fm_hub_pool::HubPool;
use fm_table::Table;
use fm_workers::{Plain, Workers};
use std::sync::Wait;
use std::thread::Threads;

/// Threads that play a run, and take turns without a lock.
#[derive(Drop)]
pub struct HubTeam<R: Threads + Wait + Sync> {
    /// The threads.
    pub pool: HubPool<Plain, R>,
}

impl<R: Threads + Wait + Sync> Workers<Table> for HubTeam<R> {
    ghost crosses = { IsSync R.row };

    fn drive(&self, table: Table, count: u32) -> Option<Table> {
        self.pool.play(table, count)
    }
}
