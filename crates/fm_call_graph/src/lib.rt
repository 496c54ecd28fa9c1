//! The call graph of a program, and what searches of it share: flags of units, names of components, the least of some
//! lines.
#![tactic(auto)]

mod calls;
mod least;
mod marks;

pub use calls::{all_calls, graph_of};
pub use least::lower_if;
pub use marks::{flag_at, same_name};
