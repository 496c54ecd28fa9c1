//! Channels between processes, and the ports that are their ends.
//!
//! Contracts see the channels as a finite map from names to queues, open writers and whether the
//! inport lives (`chans_of`). What an event does to it is said in the words of `fm_base`, as the meaning
//! says it. Beside that map stand whether a channel has room for one more message (`HasRoom`), and the
//! readers: a process that waits in a receive is noted at its channel by a number (`waiting_reader`), and
//! what makes the channel ready wakes it (`Wakes`), so that nobody needs to ask who waits in vain.
#![tactic(auto)]

mod body;
mod by_name;
mod channels;
mod discarding;
mod limits;
mod message;
mod port;

pub use channels::Channels;
pub use limits::{Limits, is_within, word_is_within};
pub use message::{Content, Got, Item, Message};
pub use port::Port;
