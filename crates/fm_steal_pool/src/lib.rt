//! A pool whose workers each have a lane of pieces, from which the others steal.
//!
//! In one turn of the lock a worker takes several pieces into its lane. It computes its own first, and steals where the
//! table has none ready. What holds of the table is a fact of its type, as in fm_pool.
#![tactic(auto)]

mod crew;
mod pool;
mod turns;

pub use pool::StealPool;
