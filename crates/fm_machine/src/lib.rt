//! The machine: runs the stack code of one process.
//!
//! `advance` and, in place, `proceed` do statements that touch nothing but the process, and tell what the
//! next one asks for. `let_go` does one that lets ports go.
#![tactic(auto)]

mod advancing;
mod done;
mod opening;
mod performing;
mod spares;

pub use advancing::{advance, let_go, next_look, proceed};
pub use done::{Done, Made};
