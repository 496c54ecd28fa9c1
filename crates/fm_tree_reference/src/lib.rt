//! The references of a statement by their places.
#![tactic(auto)]

mod walk;

pub use walk::reference_at;
