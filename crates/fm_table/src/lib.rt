//! The table of a run: whose turn it is, and the schedule that was kept.
//!
//! Contracts see a table as a program, the setup of its run, the schedule, the queue of those that can step, and those
//! whose pieces are made outside (`Told`): where the schedule leads is a function of it (`stand_of`). The processes in
//! memory are a cache of it. So want of memory changes nothing, whatever it left undone in memory: the table lets the
//! processes go, and plays its schedule again when it needs them.
//!
//! `turn` makes a piece of a process that is ready, chosen by its place among these; `play` makes the steps of an entry
//! that is handed in; `take` hands a process out for a worker, by the plan, so that its piece can be made outside,
//! `give` plays what came of it, and `recall` makes ready again who is out; `turn_light` makes the piece in place where
//! it isn't worth handing out, or where copies of its body would take much memory; `run_table` turns until nobody can
//! step or the turns are spent.
#![tactic(auto)]

mod home;
mod laws;
mod making;
mod outside;
mod piece;
mod programs;
mod reviving;
mod running;
mod shared;
mod shares;
mod standing;
mod table;
mod taking;
mod weights;

pub use fm_workers::{Given, Phase};
pub use laws::{first_come_is_fair, run_is_fair};
pub use piece::Piece;
pub use running::{run_on, run_table};
pub use table::Table;
