//! Expressions, places, arguments, printed lines, loop bounds and seats over a frame in memory: each exactly what the
//! meaning (specs/Evaluate and Actions of fm_mean, specs/Placement of fm_map) says of the frame that the memory is read
//! as.
#![tactic(auto)]

mod arguments;
mod bounds;
mod counting;
mod failure;
mod lines;
mod reference;
mod scopes;
mod seats;
mod spans;
mod values;

pub use arguments::actuals;
pub use bounds::loop_bounds;
pub use counting::references;
pub use failure::Failure;
pub use lines::line;
pub use reference::referent;
pub use scopes::{Scope, single, whole};
pub use seats::seat;
pub use spans::{place, places};
pub use values::{numbers, value};
