//! The net that the runner plays (`fm_run::Net`), over stack code, whatever it is the code of.
//!
//! `specs/Coded` tells when what is run corresponds to stack code: processes of the one do and need what those of the
//! other do. A kind of source, such as programs or images, says what is run, how its processes of stack code begin, and
//! what they show in the end (`Coded`); the net of its processes of code (`CodeNet`) plays it. Contracts see the state
//! of what is run to which the pieces lead (`played`): processes and channels of stack code stand for those of that
//! state (`IsSound`), so a piece of stack code is a piece of what is run, and who can step there can step here.
#![tactic(auto)]

mod coded;
mod net;

pub use coded::Coded;
pub use net::CodeNet;
