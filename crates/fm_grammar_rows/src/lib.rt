//! Cards, tokens, long expressions, statements read by the whole grammar and spelled again,
//! objects, which of them make sense, and traces. This crate has tests alone.
#![tactic(auto)]

#[cfg(test)]
mod cards_and_tokens;
#[cfg(test)]
mod expressions;
#[cfg(test)]
mod objects;
#[cfg(test)]
mod statements;
#[cfg(test)]
mod traces;
#[cfg(test)]
mod verified;
