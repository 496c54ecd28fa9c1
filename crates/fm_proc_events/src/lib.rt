//! One process of stack code, and its events at channels.
//!
//! Contracts say that each is what `code_language` of `fm_proc_language` says, for every process, however its words and
//! slots stand.
#![tactic(auto)]

mod failing;
mod fitting;
mod going;
mod making;
mod probing;
mod process;
mod receiving;
mod sending;
mod shedding;
mod units;

pub use failing::fail;
pub use going::set_address;
pub use making::{make_channel, make_merger};
pub use probing::probe;
pub use process::{Kid, Phase, Process};
pub use receiving::receive;
pub use sending::send;
pub use shedding::{discard_words, shed, vacate};
pub use units::{formals_at, loops_at, ports_at};
