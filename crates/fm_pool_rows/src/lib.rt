//! Tests of what no clause can say of threads: that pools come to an end with more than one thread, that pieces are
//! computed side by side, and that nothing is missing at the end; and a lane and a hub in one thread. This crate has
//! tests alone.
#![tactic(auto)]

#[cfg(test)]
mod lanes;
#[cfg(test)]
mod pools;
#[cfg(test)]
mod seats;
#[cfg(test)]
mod table;
