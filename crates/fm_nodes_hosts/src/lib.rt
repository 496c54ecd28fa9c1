//! Processes on hosts, whose channels go over links: their steps on what has arrived, and what is lost where a host
//! starts again.
//!
//! Contracts see the processes, the channels and the wire as plain data, with the history and the cost (`run_of`), and
//! say of a step when there is one and what it makes of them (`IsTried`): it is the step of a process on what has
//! arrived, as the laws of links have it. Between two events the history tells a legal schedule, which leads to the
//! state for which the hosts stand (`IsSound`).
#![tactic(auto)]

mod dropping;
mod ends;
mod finishing;
mod joining;
mod receiving;
mod resting;
mod sending;
mod state;
mod stepping;

pub use ends::restart;
pub use resting::has_ended;
pub use state::{NodeState, first_state};
pub use stepping::step;
