//! Reads statements from their tokens.
#![tactic(auto)]

mod checked;
mod names;
mod simple;
mod statements;

pub use checked::{all_of_phase_one, one_statement, one_tree, statement};
