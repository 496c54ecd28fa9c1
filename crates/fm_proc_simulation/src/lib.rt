//! The processes of a program's stack code do what those of the program do, and show the same.
//!
//! The code of a program is generated once, and its processes run it. Processes of stack code correspond to those of
//! the program (`specs/Corresponds`): they do what those of its meaning do and show the same (`machines_are_alike`,
//! `processes_are_alike`). The one with which a program of stack code begins (`program_stacks`) stands for the PROGRAM,
//! and what processes of its code show in the end (`outcome`) is the outcome of the state for which they stand.
#![tactic(auto)]

mod first;
mod laws;
mod showing;
mod variables;

pub use first::program_stacks;
pub use laws::{machines_are_alike, processes_are_alike};
pub use showing::outcome;
