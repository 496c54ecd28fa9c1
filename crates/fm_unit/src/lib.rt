//! The units of a source: phase 2 of the check. Statements are cut into units behind each END, each unit is laid out
//! and judged, and where no rule of structure is broken its statements become the entries of units, with their links
//! and the places of their references.
#![tactic(auto)]

mod cutting;
mod entries;
mod entry_links;
mod headings;
mod linking;
mod owned;
mod pieces;
mod references;
mod source;
mod titles;

pub use entry_links::all_links;
pub use source::units;
