//! Processes of stack code over channels.
//!
//! Of one process: what it does next (`next_look`), statements of its own (`advance`), its event (`perform`), letting
//! ports go (`release`), starting, joining, ending. Contracts say that it is what `code_language` of `fm_proc_language`
//! says, for every process, however its words and slots stand.
//!
//! Of all of them: contracts see the processes and channels (`CodeProcs`) as a state of the machine of stack code
//! (`state_of`): a step of a process is the step of that machine (`code_step`), and a piece is so many of them
//! (`IsPiece`). Of each process it is kept what it does next, and the number of the first of the children that it waits
//! for (`AreKept`): a process that waits isn't asked again.
#![tactic(auto)]

mod advancing;
mod beginning;
mod code_procs;
mod dropping;
mod ending;
mod giving;
mod joins;
mod letting_go;
mod measuring;
mod opening;
mod performing;
mod pieces;
mod process;
mod putting;
mod ready;
mod telling;

pub use advancing::{Advanced, advance};
pub use beginning::no_loops;
pub use code_procs::{CodeProcs, can_step, no_procs, note};
pub use fm_net_procs::{Actor, Piece as CodePiece};
pub use giving::give_piece;
pub use measuring::left_room;
pub use opening::{Left, OpenJoin, open_join, release};
pub use performing::{StepEnd, perform};
pub use pieces::make_piece;
pub use process::{CodeProcess, Entries, Entry, has_ended};
pub use putting::put_end;
pub use ready::is_join;
pub use telling::next_look;
