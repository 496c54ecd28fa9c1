//! The stack code of operands: expressions, places, arguments and items.
//!
//! `specs/Code` tells their instructions, `specs/Keeps` what it means that these do what the meaning does.
#![tactic(auto)]

mod actuals;
mod counting;
mod elements;
mod evaluating;
mod expressions;
mod places;
mod reference;
mod seats;
mod variables;

pub use actuals::{arguments, targets};
pub use counting::references;
pub use elements::{dimensions, has_elements, no_element};
pub use evaluating::expression;
pub use expressions::{emit, emit_all, operand};
pub use places::place;
pub use reference::referent;
pub use seats::seat;
pub use variables::{constant_word, named, push};
