//! A table that several seats take turns at, by single steps on a counted word, and whose history only grows.
//!
//! The word is twice the number of entries where the turn is free, and one more where a seat has it. Each seat knows
//! how the history began when it saw it last, and which entries are its own. No call waits: who is refused may try
//! again.
#![tactic(auto)]

mod handles;
mod hub;
mod playing;
mod view;

pub use handles::{Held, Hub, HubSeat};
