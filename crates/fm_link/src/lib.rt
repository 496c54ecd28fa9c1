//! Links: loads travel from a writer to a reader over a network that loses, repeats and reorders packets.
//!
//! The writer's end (`Outbox`) numbers what is pushed from 0 on and keeps it until it is acknowledged; the
//! reader's end (`Inbox`) takes the packet whose number is next, drops every other, and acknowledges by the
//! number that it takes next. Contracts see the two ends as plain data (`outgoing_of`, `incoming_of`), and
//! the laws of whole links speak of the same functions (`law`).
#![tactic(auto)]

mod inbox;
mod law;
mod load;
mod outbox;

pub use inbox::{Arrived, Inbox};
pub use law::{in_order, nothing_lost};
pub use load::{Ack, Load, Packet};
pub use outbox::Outbox;
