//! Links, channels and a wire in memory, and the rounds in which hosts are driven. This crate has tests alone.
#![tactic(auto)]

#[cfg(test)]
mod links;
#[cfg(test)]
mod network;
#[cfg(test)]
mod rounds;
#[cfg(test)]
mod wire;
