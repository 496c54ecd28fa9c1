//! Runs a program of processes to its end, or until its turns are spent.
//!
//! What is run is a net of processes and channels (`Net`), which contracts see as a state of the meaning.
//! A piece of a run is so many local steps of one process, and then one event, if it comes to one that it
//! can do, be it behind a slice that is used up; the run is a list of pieces, each of the process that its choice tells
//! among those that can step, in the order in which they are served (`run_program`). What a net tells of its processes
//! for the outcome is gathered (`Gathered`) in the same way whatever the net is: the holder of an outport is the first
//! that is told, and variables stand in byte order. That a process can step at all follows from the laws of the
//! meaning: no premise is on the program.
#![tactic(auto)]

mod becoming;
mod gathering;
mod history;
mod net;
mod orders;
mod outside;
mod player;
mod run;

pub use fm_net_procs::{Awaited, Piece};
pub use gathering::{
    Gathered, holders_in_order, join_of, push_lines, put_outport, variables_in_order,
};
pub use history::{History, put_piece};
pub use net::{Kind, Net};
pub use orders::Queue;
pub use outside::OutsideNet;
pub use player::Player;
pub use run::{Ending, Run, run_program};
