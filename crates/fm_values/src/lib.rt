//! The operations of the language on values, each exact: of constants, of the meaning and of
//! compiled code alike. Also how often loops run, and where elements stand.
#![tactic(auto)]

mod arithmetic;
mod intrinsic;
mod operation;
mod place;
mod trip;
mod value;

pub use arithmetic::{add, divide, multiply, negate, power, subtract};
pub use intrinsic::{Intrinsic, absolute_value, positive_difference, remainder, sign_transfer};
pub use operation::{apply, apply_words, with_sign};
pub use place::{element_place, place_of};
pub use trip::trips_behind;
pub use value::{Value, is_truth, truth_word};
