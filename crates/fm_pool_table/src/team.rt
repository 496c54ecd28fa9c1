//! Threads that play a run.

ghost use Rattle.std.specs.Thread.{IsSync};

use fm_pool::Pool;
use fm_table::Table;
use fm_workers::{Plain, Workers};
use std::sync::Wait;
use std::thread::Threads;

/// Threads that play a run.
#[derive(Drop)]
pub struct Team<R: Threads + Wait + Sync> {
    /// The threads.
    pub pool: Pool<Plain, R>,
}

impl<R: Threads + Wait + Sync> Workers<Table> for Team<R> {
    ghost crosses = { IsSync R.row };

    fn drive(&self, table: Table, count: u32) -> Option<Table> {
        Some(self.pool.play(table, count))
    }
}
