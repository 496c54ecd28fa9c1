//! The statements of a text in fixed form, or the first place at which the form breaks a rule.
#![tactic(auto)]

mod card;
mod judging;
mod label;
mod line;
mod reader;

pub use card::Card;
pub use judging::{all_of_phase_zero, one_verdict};
pub use reader::cards;
