//! The net that the runner plays (`fm_run::Net`), over trees: each process goes along the statements of its
//! program as they were parsed.
//!
//! A process over trees (`TreeProc`) is one that the table of processes runs (`fm_net_procs::Proc`); contracts see
//! the processes and channels (`Trees`) as a state of the meaning (`state_of`). Each port that a process holds is
//! kept under its value (`Ports`), and what each process does next, and the number of the first of the children
//! that it waits for, are kept with it (`IsSound`). That channels and ports are there, and that the name of a new
//! channel is new, follow from the laws of the meaning: no premise is on the program.
#![tactic(auto)]

mod first;
mod holders;
mod joins;
mod messages;
mod net;
mod outcome;
mod perform;
mod ports;
mod processes;
mod shown;

pub use holders::put_process;
pub use net::TreeNet;
pub use outcome::{line_at, push_fault};
pub use ports::Ports;
pub use processes::{Processes, Slot, TreeProc, Trees};
pub use shown::shown_all;
