//! What a run of stack code begins with and shows, whatever code its processes run.
//!
//! A run begins with a unit of the code as the one process (`first_stacks`), and in the end a state shows what
//! `outcome_with` gathers: lines, faults, waits and holders of its processes, and for the variables of main what is
//! given, since only who knows their names can tell them.
#![tactic(auto)]

mod begun;
mod gathering;
mod holders;
mod own;
mod rows;
mod waits;
mod words;

pub use begun::first_stacks;
pub use gathering::{outcome_with, process_of};
pub use own::own_frame;
pub use words::{channels, part, truths};
