//! The rounds in which processes on hosts are driven over a network that loses, repeats and reorders packets.
//!
//! A round has three parts: every process steps as long as it can on what has arrived; the first two packets
//! of each channel that aren't acknowledged are sent, some of them in vain; and every reader's end answers.
//! Which packet is lost and which comes twice is told by a number.
#![tactic(auto)]

mod driving;
mod hosts;
mod sendings;

pub use driving::{Driven, drive};
pub use hosts::{Hosts, NodeEvent};
