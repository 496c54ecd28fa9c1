//! The constants of a unit, its bounds, the types of its names and of its messages, and what is broken in them.
#![tactic(auto)]

mod bounds;
mod judging;
mod known;
mod parts;
mod port_types;
mod types;
mod values;

pub use bounds::{bounds_of, elements, extents};
pub use judging::judge_constants;
pub use known::{constant_list, constants};
pub use parts::{decls_of, definitions_in, is_implicit_none, machine_in, port_type_in, scalar_in};
pub use port_types::normal_port_type;
pub use types::{begins_integer, scalar_of_name, types_of};
pub use values::{integer_of, value_of};
