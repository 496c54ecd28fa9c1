//! The names of a program: constants, variables and their layout, and what a name means in a unit.
#![tactic(auto)]

mod context;
mod heading;
mod insertion;
mod names;
mod symbol;

pub use context::{Context, Scope, function_named, make_context, symbol_in, symbol_place};
pub use heading::{heading_formals, heading_kind, heading_name, is_function};
pub use insertion::insert_new;
pub use names::{Constant, Names, UnitNames, Variable};
pub use symbol::{Direction, Extent, Formal, Scalar, Symbol};
