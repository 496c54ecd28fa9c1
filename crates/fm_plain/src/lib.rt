//! Local steps of one process: each entry, or one reference of it, does what the meaning's `action_of` says.
//!
//! `advance` makes steps that touch the process alone, and stops before an event, which it hands over with its operands
//! evaluated. Who has the channels and the other processes does it, and goes on with its reply.
#![tactic(auto)]

mod advancing;
mod assigning;
mod calling;
mod control;
mod cutting;
mod event;
mod here;
mod joining;
mod local;
mod looking;
mod looping;
mod messages;
mod ports;
mod returning;
mod starting;
mod statements;
mod step;

pub use advancing::{Advanced, Stop, advance};
pub use event::Event;
pub use joining::after_at;
pub use local::{Acted, act};
pub use looking::{Next, innermost, next_of};
