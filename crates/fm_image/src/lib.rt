//! The image of a program and its code: what the text of the code says besides the instructions.
//!
//! `specs/Types` numbers the types of ports, `specs/ImageOf` says what the image of a program and its code is, and
//! `image` makes it, in time linear in the program but for types in types: each variable's type is gone through once,
//! and a type is looked up by what is said of its own fields.
#![tactic(auto)]

mod fields;
mod images;
mod types;
mod variables;

pub use images::image;
