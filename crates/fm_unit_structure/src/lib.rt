//! The structure of a unit: its entries laid out, the blocks at each place, and the rules of structure that one unit
//! can break, of the order of its statements, blocks, labels, jumps and ends of loops.
#![tactic(auto)]

mod blocks;
mod forms;
mod laws;
mod layout;
mod lookups;
mod rules;
mod sheet;

pub use blocks::{ends_of, innermost_of};
pub use laws::jumps_agree;
pub use layout::lay_out;
pub use lookups::label_targets;
pub use rules::structure;
