//! Kinds of operands: what each instruction of stack code takes and gives, told beside the code.
//!
//! A list of kinds stands at each address of a unit: what is known of the words on the stack there, of the operands
//! that the statement has built, and of its loop. `specs/Shapes` has what is known of a unit beside its code,
//! `specs/Effects` what each instruction takes from the list, gives and goes to, and `specs/Kinded` that a unit's code
//! has such lists. `specs/Fitting` and `specs/Bodies` say when a statement's stack, a frame and a body are as the lists
//! tell, and `none_is_stuck` that such a body isn't stuck; `specs/Sample` has one. This crate has types, definitions
//! and laws; nothing in it runs.
#![tactic(auto)]

mod kinds;
mod laws;
mod sorts;

pub use kinds::{Kind, Passed};
pub use laws::{none_is_stuck, sample_body_fits};
pub use sorts::{Cell, Field, Heading, Shape, Shapes, Sort};
