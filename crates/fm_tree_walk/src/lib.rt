//! The names with a list in parentheses in a statement: elements, intrinsics and references of functions alike.
#![tactic(auto)]

mod walk;

pub use walk::{Visitor, applied_names, visit_applied};
