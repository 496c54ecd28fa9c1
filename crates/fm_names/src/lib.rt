//! The names of a program: what they are, where they break a rule, and the layout of variables.
#![tactic(auto)]

mod judging;
mod program;
mod sheet;
mod variables;

pub use program::names;
pub use sheet::make_sheet;
