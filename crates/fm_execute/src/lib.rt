//! Runs an image that makes sense, and the image whose object text some bytes are.
//!
//! Its processes run as stack code, which was read from an object text and not generated here. `execute` plays the
//! image's own machine (`fm_execute_image`) from its PROGRAM alone on, and its run tells what that machine shows in the
//! end. `execute_text` reads the text, looks whether the image makes sense, and executes it; a text that is none, and
//! an image that makes no sense, are refused with their line or unit, and nothing runs.
#![tactic(auto)]

mod executing;
mod fail;
mod images;
mod texts;

pub use executing::execute;
pub use fail::ExecuteFail;
pub use images::Images;
pub use texts::execute_text;
