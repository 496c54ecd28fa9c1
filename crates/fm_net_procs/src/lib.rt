//! Processes by number, in the order of starting, whatever their statements are: stack code, or trees.
//!
//! A process is what has the trait `Proc`: it says what it does next, whether it has ended, and for how many children
//! it waits; it makes steps of its own, does its event, joins its children, and leaves what its parent joins. Contracts
//! see the processes (`Entries`) as the machine of processes does (`procs_of`), each under its place, and the places in
//! the order of the numbers (`order_of`); with the channels (`Processes`) they are a state of that machine
//! (`state_of`). A piece (`make_piece`) is so many of its steps (`IsPiece`), all of one process. Of each process it is
//! kept what it does next (`AreTold`), and the number of the first of the children that it waits for (`AreFamilies`): a
//! process that waits isn't asked again.
#![tactic(auto)]

mod children;
mod entries;
mod piece;
mod pieces;
mod process;
mod processes;
mod ready;
mod stepping;

pub use children::Awaited;
pub use entries::{Actor, Entries, Entry};
pub use piece::{Advanced, Done, Piece, Stop};
pub use pieces::local_piece;
pub use process::{JoiningProc, Proc};
pub use processes::Processes;
