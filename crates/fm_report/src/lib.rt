//! The report of a run that has ended: its bytes.
#![tactic(auto)]

mod line;
mod several;
mod text;

pub use text::{report, reports_name_each, spent_text};
