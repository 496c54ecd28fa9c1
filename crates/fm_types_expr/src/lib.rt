//! The types of expressions and of variables, and the rules on operands, subscripts, arguments and targets.
#![tactic(auto)]

mod expressions;
mod flags;
mod typing;
mod variables;

pub use expressions::{judge, judge_arguments, judge_reference};
pub use flags::{both, e40, e41, e42, e43, e44, e46, e50, no_flags};
pub use typing::{needed, needed_value, operand, result_of, same_scalar, symbol_type};
pub use variables::{is_bare, judge_target, judge_variable, target_named};
