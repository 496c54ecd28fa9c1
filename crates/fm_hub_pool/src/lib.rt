//! A pool whose workers take turns at a table behind a counted word.
//!
//! Each worker has a seat of the hub. It holds the turn to give what its last piece came to and to take the next one,
//! and computes between turns. Nobody waits for a lock: who finds the turn taken tries again. What holds of the table
//! is a fact of its type, as in fm_pool.
#![tactic(auto)]

mod desk;
mod pool;
mod turns;

pub use pool::HubPool;
