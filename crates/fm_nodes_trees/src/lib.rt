//! What runs the processes of a plain program over trees, for hosts.
//!
//! `Trees` is a `Runner` of fm_nodes_procs over the processes of fm_plain_frame: it tells what a process asks for with
//! its operands, and goes on with the reply in place. After want of memory a process is as it was.
#![tactic(auto)]

mod asking;
mod drops;
mod going;
mod holding;
mod joining;
mod telling;
mod trees;

pub use drops::Drops;
pub use trees::Trees;
