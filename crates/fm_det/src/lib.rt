//! What is judged by the calls of a program: recursion, which is forbidden, and races, where a run may depend on the
//! order of steps.
#![tactic(auto)]

mod racing;
mod recursive;

pub use racing::race;
pub use recursive::recursion;
