//! The names that stand in a unit, each once, in the order of the text.
#![tactic(auto)]

mod occurrences;

pub use occurrences::first_occurrences;
