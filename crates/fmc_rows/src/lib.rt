//! Worked programs with their answers, and other tests that cross crates. This crate has tests alone.
#![tactic(auto)]

#[cfg(test)]
mod answers;
#[cfg(test)]
mod base;
#[cfg(test)]
mod channels;
#[cfg(test)]
mod compiled;
#[cfg(test)]
mod examples;
#[cfg(test)]
mod executed;
#[cfg(test)]
mod faults;
#[cfg(test)]
mod flow;
#[cfg(test)]
mod homes;
#[cfg(test)]
mod io;
#[cfg(test)]
mod language;
#[cfg(test)]
mod made;
#[cfg(test)]
mod nodes;
#[cfg(test)]
mod pieces;
#[cfg(test)]
mod placement;
#[cfg(test)]
mod plain;
#[cfg(test)]
mod pools;
#[cfg(test)]
mod programs;
#[cfg(test)]
mod rounds;
#[cfg(test)]
mod rules;
#[cfg(test)]
mod schedules;
#[cfg(test)]
mod seats;
#[cfg(test)]
mod traces;
#[cfg(test)]
mod tree_run;
#[cfg(test)]
mod trees;
#[cfg(test)]
mod words;
#[cfg(test)]
mod workers;
