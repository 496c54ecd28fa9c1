//! A plain program on hosts whose channels go over links that lose, repeat and reorder packets.
//!
//! `Nodes` has a program, so many hosts, and what has happened to them. Whatever happens, the history and the paths
//! tell a legal schedule of the program, which leads to the state for which the hosts stand (`IsHosted`); each event is
//! told exactly, when it can be done and what it makes of the hosts (`IsDone`).
//!
//! `run_on_hosts` drives them by the rounds of `fm_nodes_rounds`. What comes of it is a run as others are
//! (`fm_run::Run`): its history tells a legal schedule, which ends with what the run shows, or costs more than the
//! turns.
#![tactic(auto)]

mod nodes;
mod outcome;
mod playing;
mod run;

pub use nodes::{Nodes, NodesFail};
pub use run::run_on_hosts;
