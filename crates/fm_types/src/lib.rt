//! The rules on types: operands, subscripts, arguments, units, targets, and what a FUNCTION may not do.
#![tactic(auto)]

mod calls;
mod messages;
mod parts;
mod program;
mod statements;

pub use calls::callee_of;
pub use program::types;
pub use statements::judge_statement;
