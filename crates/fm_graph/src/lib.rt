//! Directed graphs: strong components, and what a node reaches.
#![tactic(auto)]

mod reachable;
mod search;
mod strong;

pub use reachable::reached;
pub use strong::components;
