//! Processes in memory: frames with one vector of words each, by the layout of their units.
//!
//! Contracts see memory as the meaning's values (`specs/Memory`), and frames and processes as the meaning's
//! (`specs/Frames`).
#![tactic(auto)]

mod copying;
mod emptiness;
mod frame;
mod leaving;
mod let_go;
mod lookup;
pub mod memory;
mod process;
mod reading;
mod reference;
mod unit_view;
mod units;
mod word;

pub use emptiness::has_no_port;
pub use frame::{Frame, Start, Trips};
pub use leaving::Leaving;
pub use let_go::LetGo;
pub use lookup::formal_place;
pub use process::{Kid, Phase, PlainProc, nodes_of};
pub use reading::part;
pub use reference::{Reference, arguments_in, arguments_of, number_after};
pub use unit_view::UnitView;
pub use units::{unit_named, variables_of};
pub use word::Word;
