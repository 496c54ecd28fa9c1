//! The generator of stack code.
//!
//! `specs/Statements` tells the instructions of executable statements, `specs/Steps` what it means that a statement of
//! code does what one of the meaning does, with the laws in `proofs/StatementLaws` and, for what a reference of a
//! function evaluates, `proofs/CallStatements`.
//!
//! `specs/Entries` tells the instructions of entries, with the references of functions in front, and where they begin,
//! `specs/Units` and `specs/Programs` the code of units and of a program, `specs/Kept` and `specs/Bodies` what it means
//! that code does what its program does.
#![tactic(auto)]

mod addresses;
mod asking;
mod calling;
mod describing;
mod generating;
mod looping;
mod printing;
mod referring;
mod statements;
mod storing;
mod units;

pub use addresses::Addresses;
pub use generating::{generate, unit};
pub use statements::{Site, statement};
pub use storing::is_word;
