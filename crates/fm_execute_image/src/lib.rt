//! An image as what is run: its code in memory, how its run begins, what it does, and what it shows in the end.
//!
//! The code is made unit by unit: instructions and statements are those of the image, and its variables tell how many
//! words a frame has, which of these are port words, and the formals by their places. What the code of an image is says
//! `code_of` of fm_image_typed, of every image, whether it makes sense or not.
//!
//! Main is the PROGRAM among the units, alone (`first_stacks`). What a state of its processes shows is `outcome_of` of
//! `specs/Outcome`: what processes of stack code show, and the variables of main, which the image names. `specs/Play`
//! has the image's own machine as what is run (`image_play`), and the same over processes that are good where the image
//! makes sense (`good_play`), which is lawful there, as the runner asks of what it plays; in any case the two do and
//! show the same.
#![tactic(auto)]

mod first;
mod formals;
mod laws;
mod making;
mod rows;
mod showing;
mod words;

pub use first::first_stacks;
pub use laws::{good_play_is_lawful, plays_are_alike};
pub use showing::outcome;
