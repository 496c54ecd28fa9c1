//! What is found of the waits of a run.

use fm_base::{Path, Seq};

/// Whom the waiting processes wait for, and the cycles among them.
#[derive(Drop)]
pub struct Waits {
    /// For each wait of the outcome, in its order, whom it is for. None where the wait is lost.
    pub on: Seq<Option<Path>>,
    /// Each cycle once, from its least path, in order of these.
    pub cycles: Seq<Seq<Path>>,
}
