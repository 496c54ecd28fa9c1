//! The class of a statement's text, and its cut into tokens. A text is what `fm_cards` gives:
//! without blanks and in upper case outside of character constants.
#![tactic(auto)]

mod classes;
mod front;
mod pieces;
mod scan;
mod statements;
mod top_level;

pub use classes::class;
pub use statements::tokens;
