//! Tables whose pieces workers compute, who computes a piece, and who plays a table.
//!
//! What a table keeps is its type's own promise: it holds whoever brings pieces and in whatever order. So the traits
//! here say only what a table gives out, takes back and keeps, and a player of tables promises nothing.
#![tactic(auto)]

mod gate;
mod shared;
mod workers;

pub use gate::{Gate, Plain};
pub use shared::{Given, KeepsHistory, Phase, SharedTable};
pub use workers::Workers;
