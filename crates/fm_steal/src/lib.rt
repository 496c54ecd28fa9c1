//! A lane of items that its owner puts in and takes out, and from which thieves take items from other threads.
//!
//! Each item has a ticket, the number of puts before it. Nothing is lost and nothing is taken twice (`Lane::close`).
#![tactic(auto)]

mod hand;
mod handles;
mod lanes;

pub use handles::{Lane, Thief};
pub use lanes::lane;
