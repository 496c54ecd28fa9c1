//! The program of a source, or why the source is refused.
#![tactic(auto)]

mod checking;
mod reading;
mod source;

pub use reading::statements;
pub use source::{check_statements, front, one_program, one_verdict};
