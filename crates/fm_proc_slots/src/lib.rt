//! The ports of a process of stack code, each in a numbered slot: the words of frames name slots, and 0 is NULL.
//! Each function does to words and slots what the definition of `fm_proc_language` says, for every number that a word
//! may have.
#![tactic(auto)]

mod blanks;
mod building;
mod exchanging;
mod joining;
mod keeping;
mod messages;
mod moving;
mod open;
mod placing;
mod slots;
mod stock;
mod storing;
mod words;

pub use building::ports_message;
pub use joining::{Child, Gains, give_back, vacate_words};
pub use keeping::{is_kept, rise};
pub use messages::{message_words, words_message};
pub use moving::move_over;
pub use open::OpenSlots;
pub use placing::{place_all, port_words};
pub use slots::Slots;
pub use storing::store_all;
pub use words::{null_span, set_word, span_words};
