//! What a unit declares of its names, and where it declares something twice.
#![tactic(auto)]

mod aspect;
mod declarations;
mod notes;
mod titles;

pub use declarations::judge_declarations;
pub use titles::{function_titles, is_other_function};
