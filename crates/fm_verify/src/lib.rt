//! Whether an image makes sense, and the least unit of one that doesn't.
//!
//! `verify` looks at the whole image, its one PROGRAM and the types of ports, and then at each unit: its machine, the
//! words of its variables and their names, its formals, where its statements begin and where its blocks are joined, and
//! that its code has its kinds (fm_verify_unit). What it accepts is an image that makes sense, by the definition of
//! fm_image_typed, and what it refuses is none.
#![tactic(auto)]

mod cells;
mod entries;
mod fail;
mod joins;
mod machines;
mod shapes;
mod types;
mod unit;
mod verifying;

pub use cells::count_formals;
pub use entries::loops_of;
pub use fail::VerifyFail;
pub use shapes::{cell_of, known_unit};
pub use verifying::{Verified, verify};
