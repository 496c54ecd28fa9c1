//! Instructions of stack code: what each does, and how a statement of them ends.
//!
//! `statement` decides this over a frame that is only read; nothing but `Work` changes.
#![tactic(auto)]

mod asking;
mod building;
mod changing;
mod cutting;
mod deciding;
mod evaluating;
mod looping;
mod passing;
mod statement_end;
mod statements;
mod work;

pub use changing::{change, go_to, write};
pub use evaluating::{distance, word_of};
pub use looping::{Ways, fewer};
pub use passing::{Passing, tell_passing};
pub use statement_end::{Change, Ending, StatementEnd};
pub use statements::statement;
pub use work::Work;
