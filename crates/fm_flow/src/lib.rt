//! Whether a program may deadlock, told ahead of its run: the least line at which a sentence of the flow
//! check holds, or none.
//!
//! The sentences and what they promise stand in `fm_flow_law`. `flow` goes over the declarations and the
//! body of the PROGRAM once for each sentence, with a flag for each of its variables, and once over each
//! unit. Which units make channels or processes, and which calls lead back to themselves, it tells by the
//! strong components of two graphs, whose edges are in proportion to the program.
#![tactic(auto)]

mod arcs;
mod declarations;
mod marks;
mod ports;
mod rings;
mod sentences;
mod units;
mod verdict;

pub use verdict::flow;
