//! The program that a number makes: a chain of processes with a known answer.
#![tactic(auto)]

mod made;
mod measures;
mod units;

pub use made::make;
