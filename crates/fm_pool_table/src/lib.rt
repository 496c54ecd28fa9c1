//! `Team`: a pool of threads that plays the table of a run.
//!
//! That a table may go to threads, and its pieces to others, is proved here, part for part (`proofs/Crosses.antt`):
//! each part of a program may go to another thread and be shared by threads, and so may a path; and what stands in
//! channels, the processes of code and the table may go to another thread.
#![tactic(auto)]

mod team;

pub use team::Team;
