//! What every layer of fmc shares: names and places, rules and faults, tokens, printed lines, and
//! the verdict over a set of rules.
#![tactic(auto)]

mod chain;
mod fault;
mod judging;
mod letters;
mod memory;
mod name;
mod output;
mod parse_fail;
mod path;
mod port;
mod rule;
mod schedule;
mod seq;
mod token;

pub use fault::Fault;
pub use judging::{
    Judge, first_verdict, keep_earlier, keep_if, least_law, phases_join, verdict, verdicts_join,
};
pub use letters::{are_name_bytes, is_name_byte, is_name_text};
pub use memory::NoMemory;
pub use name::{Label, Line, Name};
pub use output::{Printed, output_line};
pub use parse_fail::ParseFail;
pub use path::{ChanName, Path, order_of_channels, order_of_paths, orders_are_total_and_exact};
pub use port::PortValue;
pub use rule::{CheckFail, Refusal, Rule};
pub use schedule::{Machine, Plan, Setup, Turn};
pub use seq::Seq;
pub use token::{Class, Op, Token};
