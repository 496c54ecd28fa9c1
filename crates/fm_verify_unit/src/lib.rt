//! Tests in one pass whether the code of a unit has its kinds.
//!
//! `kinded` keeps one list of kinds, that of the address at which it is, and of each address whether anything but
//! results is on its list; then it looks whether each instruction goes where its results are awaited. `specs/Along` has
//! the lists as the code itself tells them.
#![tactic(auto)]

mod building;
mod cells;
mod ending;
mod evaluating;
mod fitting;
mod kinds;
mod leading;
mod meeting;
mod searched;
mod taking;
mod unit;

pub use cells::is_word;
pub use leading::{Leads, leads_of};
pub use searched::{Known, KnownUnit};
pub use unit::{Own, kinded};
