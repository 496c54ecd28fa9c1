//! The words of the command line: which of them are a command, and which command.
#![tactic(auto)]

mod command;
mod option;
mod settings;
mod setup;
mod values;

pub use command::{Command, WordsFail, words};
