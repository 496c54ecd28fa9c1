//! How a process goes on with the reply to its event.
//!
//! Who runs processes makes the events that they stop at: makes channels, takes and brings messages, starts children
//! and gathers them. Then the process goes on by the call for that reply: `fail`, `put_ports`, `take_message`,
//! `store_message`, `meet_end`, `put_probe`, `begin`, `join` or `end`. Contracts see a process as the meaning's
//! (`proc_of`), and say that it goes on as in the meaning. A process without frames stays as it is.
//!
//! Ports that are let go are handed out where they stand (`LetGo`); who runs the process discards them, in order.
//!
//! After want of memory a process is as it was. Blocks and channels are counted in machine numbers: at the last of them
//! a process can't go on, which is answered as want of memory.
#![tactic(auto)]

mod beginning;
mod channels;
mod ending;
mod frames;
mod joining;

pub use beginning::begin;
pub use channels::{
    fail, limits_of, meet_end, next_name, put_ports, put_probe, store_message, take_message,
};
pub use ending::end;
pub use joining::{Ended, join, kids_in, leave};
