//! How statements and expressions are spelled.
#![tactic(auto)]

mod expression;
mod list;
mod part;
mod port_type;
mod simple;
mod statement;
mod text;
mod word;

pub use statement::spell;
pub use text::spell_text;
