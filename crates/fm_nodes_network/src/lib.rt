//! Channels over links, in memory: the two ends of each, and the wire.
//!
//! Contracts see plain data: a channel as a `LinkedChan`, and the channels as the finite map of these
//! (`linked_chans_of`).
#![tactic(auto)]

mod channel;
mod channels;
mod network;

pub use channel::Channel;
pub use channels::Channels;
pub use network::{Carried, Network, Outlasts, Thing};
