//! The rules on ports: directions, messages, types, and the rank of LOCATION.
#![tactic(auto)]

mod fitting;
mod judged;
mod lookup;
mod rules;
mod walk;

pub use walk::ports;
