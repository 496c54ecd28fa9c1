//! Processes in memory for hosts, and what runs them.
//!
//! `Processes` has processes by numbers, in the order of their starting; contracts see the finite map by their paths
//! (`by_path`, and `procs_of` as a language sees them) and the paths in their order (`order_of`). `Runner` is what runs
//! the processes of a language: it tells what a process asks for, and goes on with the reply.
#![tactic(auto)]

mod children;
mod order;
mod processes;
mod runner;

pub use children::{child_paths, ended_children, go_on, join, lefts, start_all, step_alone};
pub use processes::Processes;
pub use runner::{Asked, Gone, Request, Runner};
