//! Where processes are put on the nodes of machines, and which worker a node belongs to.
#![tactic(auto)]

mod nodes;
mod parts;
mod seats;
mod workers;

pub use fm_base::{Machine, Plan};
pub use nodes::place;
pub use parts::part;
pub use seats::{Seat, fitted, located, parted};
pub use workers::worker_of;
