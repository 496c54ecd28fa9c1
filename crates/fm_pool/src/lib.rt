//! Workers that share a table: each takes a piece under a lock, computes it outside, and gives it under the lock.
//!
//! The table's own type says what holds of it; so it holds whenever the lock is free, whatever the workers bring and in
//! whatever order. That no worker waits for ever, and that pieces are computed side by side, no clause can say: tests
//! do.
#![tactic(auto)]

mod desk;
mod pool;
mod room;

pub use desk::{Desk, Next};
pub use pool::Pool;
pub use room::Room;
