//! What passes between frames, and between frames and messages: folds of the exchange of a port with a place in a
//! frame.
//!
//! What takes memory makes all room before the first port moves, so that after want of memory everything is as it was.
#![tactic(auto)]

mod backs;
mod entering;
mod giving;
mod item;
mod keeping;
mod messages;
mod moving;
mod room;

pub use backs::{back_words, backs_of};
pub use entering::{Entered, enter};
pub use giving::{back_room, give_back, give_back_into};
pub use item::{Item, message_words};
pub use keeping::keep_formals;
pub use messages::{place_ports, store_items, take_items};
